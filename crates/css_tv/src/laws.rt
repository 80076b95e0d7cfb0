//! What is proved of a television's events alone. Each law is the contract of a function that does nothing.

ghost use Rattle.std.specs.Prelude.{◌≡◌, ℕ, List, Ok};
ghost use Rattle.css_player.specs.Player.{Player};
ghost use Rattle.css_player.specs.Segments.{with_programme, control_of};
ghost use Rattle.css_sessions.specs.Told.{own};
ghost use Rattle.css_tv.specs.States.{published_state};
ghost use Rattle.css_tv.specs.Stages.{IsShown};
ghost use Rattle.css_tv.specs.Standing.{calls_of, texts_after};
ghost use Rattle.css_tv.specs.declared.state.Addresses.{Addresses};
ghost use Rattle.css_tv.specs.declared.event.TvEvent.{TvEvent};

/// What a session is told depends on what is published, its opening, its own setup and its end alone. Two televisions
/// whose events agree in these tell it equal texts, whatever happens at other sessions.
pub fn isolation()
    ensures { (a b : Addresses) (peer : ℕ) (h k : List TvEvent) → own peer (calls_of a h).sessions ≡ own peer
        (calls_of b k).sessions → texts_after a peer h ≡ texts_after b peer k }
{}

/// Another programme changes nothing that is published, so nobody is told of it.
pub fn programmes_are_not_told()
    ensures state { (a : Addresses) (id : List ℕ) (p q : Player) → IsShown p → with_programme id p ≡ Ok q
        → published_state a q ≡ published_state a p }
    ensures controls { (stem selector id : List ℕ) (p q : Player) → IsShown p → with_programme id p ≡ Ok q
        → control_of stem selector q ≡ control_of stem selector p }
{}
