ghost use Rattle.std.specs.Prelude.{◌≡◌, ◌+◌, ◌^◌, ◌≤◌, List, [], ◌∷◌, ◌++◌, ℕ, length, OnOk};
ghost use Rattle.css_lines.specs.Meaning.{Meaning};
ghost use Rattle.css_lines.specs.Answers.{Answers};

/// Why a line is refused.
#[derive(Clone, Copy, Debug, PartialEq, Eq, Drop)]
pub enum Refusal<C> {
    /// The line is too long, or the whole input is: the first byte too many stands in this line, or is its line feed.
    Long,
    /// Its reader refuses it.
    Refused(C),
}

/// Why a reader of lines takes no line.
#[derive(Clone, Copy, Debug, PartialEq, Eq, Drop)]
pub enum LineFault<C> {
    /// It refuses the line.
    Refused(C),
    /// Memory ran out.
    Memory,
}

/// A reader of lines: what it prints for each line, and which line it refuses.
pub trait Lines {
    /// Why it refuses a line.
    type Cause: Drop;

    /// What it makes of the next line after those before, whatever it keeps of them.
    ghost meaning: { Meaning Self.Cause };

    /// It stands for these lines: they are those that it has taken.
    ghost stands: { Self → List (List ℕ) → Type 0 };

    /// The greatest length of the next line, in bytes and without its line feed.
    fn longest_line(&self) -> usize
        ensures { (before : List (List ℕ)) → stands self.now before → result ≡ meaning.longest_line before };

    /// The greatest number of bytes of the whole input, as far as it is known; at most 2^40.
    fn longest_input(&self) -> u64
        ensures value { (before : List (List ℕ)) → stands self.now before → result ≡ meaning.longest_input before }
        ensures bound { result ≤ 2 ^ 40 };

    /// Takes the next line, which comes without its line feed and has that number, counted from 1. It adds to `out`
    /// what is printed for the line. After a fault it is used no more.
    fn line(
        &mut self,
        number: u64,
        text: &[u8],
        out: &mut Vec<u8>,
    ) -> Result<(), LineFault<Self::Cause>>
        requires { (before : List (List ℕ)) × stands self.old before × (number ≡ length before + 1) }
        ensures answers { (before : List (List ℕ)) → stands self.old before → number ≡ length before + 1
            → Answers (meaning.line before text.now) out.old.items out.new.items result }
        ensures stands { OnOk result ((before : List (List ℕ)) → stands self.old before → number ≡ length before + 1
            → stands self.new (before ++ text.now ∷ [])) };

    /// Learns that no line follows, and adds to `out` what is printed then. It stands for the same lines as before.
    fn finish(&mut self, out: &mut Vec<u8>) -> Result<(), LineFault<Self::Cause>>
        ensures answers { (before : List (List ℕ)) → stands self.old before
            → Answers (meaning.finish before) out.old.items out.new.items result }
        ensures stands { OnOk result ((before : List (List ℕ)) → stands self.old before → stands self.new before) };
}
