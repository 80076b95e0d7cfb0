ghost use Rattle.std.specs.Prelude.{◌≡◌, Ok, Err, false, true};
ghost use Rattle.css_words.specs.Commands as commands;
ghost use Rattle.css_words.specs.Companion.{CompanionAsked};
ghost use Rattle.css_words.specs.Generator.{GeneratorAsked};
ghost use Rattle.css_words.specs.Pair.{PairAsked};
ghost use Rattle.css_words.specs.Relay.{RelayAsked};
ghost use Rattle.css_words.specs.Tv.{TvAsked};
ghost use Rattle.css_words.specs.Watch.{WatchAsked};
ghost use Rattle.css_words.specs.Written.{IsWritable};
ghost use Rattle.css_words.specs.declared.fault.WordsFault.TheVariants as words_fault;
ghost use Rattle.css_status.specs.Devices.{sink_use, source_use};
ghost use Rattle.css_status.specs.Ended.{CountsCalls, CountsDials, CountsReads, CountsSpawns, CountsWrites};
ghost use Rattle.css_replay.specs.Ended.{ByReplay};
ghost use Rattle.css_status.specs.Ended.{IsNoUsage};
ghost use Rattle.css_app.specs.Commands.{ByAgree, ByAudit, ByCompanion, ByGenerate, ByMigrate, ByPair, ByPairs};
ghost use Rattle.css_app.specs.Commands.{ByRecord, ByRelay, BySurvey, ByTv, ByWatch, Does};
ghost use Rattle.css_app.specs.Commands.{IsUsageUnlessMemory, asked_by};
ghost use Rattle.css_app.specs.Commands.{uses_followers, uses_outside, uses_sink, uses_source, uses_spawner};
ghost use Rattle.css_app.specs.Live.{TellsFaults, followers_use, outside_use, spawner_use, uses};

use crate::asked::{companions_in, pair_run_of, relay_run_of, run_of, tv_run_of, watch_run_of};
use crate::lines::{agree, agree_pairs, audit, migrate};
use crate::live::{companion, record_companion, status_of, tv, watch_television};
use crate::live_pair::pair;
use crate::written::{generate, survey};
use css_drive::Listens;
use css_drive_relay::drive_relay;
use css_num::Memory;
use css_outside::{Outside, Sink, Source, Spawner};
use css_replay::replay;
use css_status::Status;
use css_words::{Command, WordsFault, command_of};
use std::alloc::Global;

// Runs a command.
fn run_command<S: Source, K: Sink, O: Outside, P: Spawner, F: Listens>(
    alloc: Global,
    command: Command,
    source: &mut S,
    sink: &mut K,
    outside: &mut O,
    spawner: &mut P,
    followers: &mut F,
) -> Status
    requires { IsWritable command }
    ensures does { Does (Ok (commands.asked_of command)) (uses (source_use S.left S.faults source.old source.new)
        (sink_use K.holds K.faults sink.old sink.new) (outside_use O.told O.counts outside.old outside.new)
        (spawner_use P.told P.running P.faults spawner.old spawner.new)
        (followers_use F.takes F.heard followers.old followers.new)) result }
    ensures no_usage { IsNoUsage result }
    ensures same_source { uses_source (Ok (commands.asked_of command)) ≡ false → source.new ≡ source.old }
    ensures same_sink { uses_sink (Ok (commands.asked_of command)) ≡ false → sink.new ≡ sink.old }
    ensures same_outside { uses_outside (Ok (commands.asked_of command)) ≡ false → outside.new ≡ outside.old }
    ensures same_spawner { uses_spawner (Ok (commands.asked_of command)) ≡ false → spawner.new ≡ spawner.old }
    ensures same_followers { uses_followers (Ok (commands.asked_of command)) ≡ false → followers.new ≡ followers.old }
    ensures counted { TellsFaults (S.faults source.old) (S.faults source.new) (K.faults sink.old) (K.faults sink.new)
        (O.counts outside.old) (O.counts outside.new) (P.faults spawner.old) (P.faults spawner.new) result }
{
    match command {
        Command::Replay => replay(alloc, source, sink),
        Command::Agree { pairs: false } => agree(alloc, source, sink),
        Command::Agree { pairs: true } => agree_pairs(alloc, source, sink),
        Command::Audit => audit(alloc, source, sink),
        Command::Migrate => migrate(alloc, source, sink),
        Command::Companion(words) => {
            let run = run_of(words.options, words.cii);
            if words.recorded {
                record_companion(alloc, run, sink, outside)
            } else {
                companion(alloc, run, source, sink, outside, followers)
            }
        }
        Command::Tv(words) => tv(alloc, tv_run_of(words), source, outside),
        Command::Pair(words) => match pair_run_of(alloc, words) {
            Ok((run, child)) => pair(
                alloc, run, &child, source, sink, outside, spawner, followers,
            ),
            Err(Memory) => Status::Memory,
        },
        Command::Relay(words) => {
            status_of(drive_relay(alloc, relay_run_of(alloc, words), outside))
        }
        Command::Watch(words) => { watch_television(alloc, watch_run_of(words), sink, outside) }
        Command::Generate(words) => {
            generate(alloc, words.seed, words.lines, companions_in(words), sink)
        }
        Command::Survey(words) => {
            survey(alloc, words.seed, words.lines, companions_in(words), sink)
        }
    }
}

// Runs the command that the words ask for.
fn run_asked<S: Source, K: Sink, O: Outside, P: Spawner, F: Listens>(
    alloc: Global,
    words: &[String],
    source: &mut S,
    sink: &mut K,
    outside: &mut O,
    spawner: &mut P,
    followers: &mut F,
) -> Status
    ensures usage { result ≡ Status.Usage → asked_by words.now ≡ Err words_fault.Usage }
    ensures does { Does (asked_by words.now) (uses (source_use S.left S.faults source.old source.new)
        (sink_use K.holds K.faults sink.old sink.new) (outside_use O.told O.counts outside.old outside.new)
        (spawner_use P.told P.running P.faults spawner.old spawner.new)
        (followers_use F.takes F.heard followers.old followers.new)) result }
    ensures same_source { uses_source (asked_by words.now) ≡ false → source.new ≡ source.old }
    ensures same_sink { uses_sink (asked_by words.now) ≡ false → sink.new ≡ sink.old }
    ensures same_outside { uses_outside (asked_by words.now) ≡ false → outside.new ≡ outside.old }
    ensures same_spawner { uses_spawner (asked_by words.now) ≡ false → spawner.new ≡ spawner.old }
    ensures same_followers { uses_followers (asked_by words.now) ≡ false → followers.new ≡ followers.old }
    ensures counted { TellsFaults (S.faults source.old) (S.faults source.new) (K.faults sink.old) (K.faults sink.new)
        (O.counts outside.old) (O.counts outside.new) (P.faults spawner.old) (P.faults spawner.new) result }
{
    match command_of(alloc, words) {
        Ok(command) => run_command(alloc, command, source, sink, outside, spawner, followers),
        Err(WordsFault::Usage) => Status::Usage,
        Err(WordsFault::Memory) => Status::Memory,
    }
}

/// Runs the program: the words are those after its name.
///
/// - `replay` reads a schedule from the source, and writes what each line gives to the sink before it reads on.
/// - `agree` reads the answers of a wall clock in the same way, and tells what they say together. With
///   `--pairs` it names two of them where they disagree.
/// - `audit` reads the record of a companion in the same way, and checks each report of it.
/// - `migrate` reads a schedule of version 1 in the same way, and writes it as one of version 2.
/// - `companion` reads a cue sheet from the source, to its end. Then it is a companion of the television at an address:
///   it writes its reports to the sink, and the followers are told them. With `--record` it reads no sheet, no one
///   follows it, and it writes the record of its run.
/// - `tv` reads a script from the source, to its end, and then is a television.
/// - `pair` reads a script, starts `tv` with it as a child, and is a companion of it.
/// - `relay` is a companion that serves the television's wall clock on to further companions.
/// - `watch` is a companion that stays: it goes on where a session closes or a text can't be read, and it writes what
///   happens to the sink as JSON lines.
/// - `generate` writes the schedule of so many lines that is generated of a seed.
/// - `survey` replays this schedule as it is generated, and writes one line, which counts the reports.
///
/// The options of each command are those of `css_words`.
///
/// `Usage` comes exactly where the words are those of no command; then no device was touched. Want of memory, which may
/// come in place of any status, comes as `Memory`.
pub fn run<S: Source, K: Sink, O: Outside, P: Spawner, F: Listens>(
    alloc: Global,
    words: &[String],
    source: &mut S,
    sink: &mut K,
    outside: &mut O,
    spawner: &mut P,
    followers: &mut F,
) -> Status
    // Which words are accepted.
    ensures usage { result ≡ Status.Usage → asked_by words.now ≡ Err words_fault.Usage }
    ensures refused { asked_by words.now ≡ Err words_fault.Usage → IsUsageUnlessMemory result }

    // A device that the command doesn't use is as before. A refused command line uses none.
    ensures same_source { uses_source (asked_by words.now) ≡ false → source.new ≡ source.old }
    ensures same_sink { uses_sink (asked_by words.now) ≡ false → sink.new ≡ sink.old }
    ensures same_outside { uses_outside (asked_by words.now) ≡ false → outside.new ≡ outside.old }
    ensures same_spawner { uses_spawner (asked_by words.now) ≡ false → spawner.new ≡ spawner.old }
    ensures same_followers { uses_followers (asked_by words.now) ≡ false → followers.new ≡ followers.old }

    // A schedule: what became of its lines. Of every source, what the sink gained keeps the promise: each interval of
    // ticks contains the position that the last control timestamp received assigns to the value that its line gives the
    // television's wall clock, and comes from the narrowest accepted response; lacking a response or usable timestamp
    // the cause is printed. Once told, the companion's state of the content is one that the television published.
    ensures replay { asked_by words.now ≡ Ok commands.Replay → ByReplay
        (source_use S.left S.faults source.old source.new) (sink_use K.holds K.faults sink.old sink.new) result }

    // Answers: what is printed of them is what they say together, true in every world that makes them truthful.
    ensures agree { asked_by words.now ≡ Ok (commands.Agree false) → ByAgree
        (source_use S.left S.faults source.old source.new) (sink_use K.holds K.faults sink.old sink.new) result }

    // The same with `--pairs`: of answers that disagree two are named, which aren't both true in any such world.
    ensures pairs { asked_by words.now ≡ Ok (commands.Agree true) → ByPairs
        (source_use S.left S.faults source.old source.new) (sink_use K.holds K.faults sink.old sink.new) result }

    // A record: a yes says that each report of it is the one that its companion was to make there, by the lines before
    // it, and else the status tells the first line that has a cause, and its first cause.
    ensures audit { asked_by words.now ≡ Ok commands.Audit → ByAudit
        (source_use S.left S.faults source.old source.new) (sink_use K.holds K.faults sink.old sink.new) result }

    // A schedule of version 1: what its lines become in version 2.
    ensures migrate { asked_by words.now ≡ Ok commands.Migrate → ByMigrate
        (source_use S.left S.faults source.old source.new) (sink_use K.holds K.faults sink.old sink.new) result }

    // A companion by its sheet: each report is that of the calls before it, and each interval contains the position
    // that the last control timestamp received assigns to the television's wall clock, in every world that explains
    // what the companion was told.
    ensures companion { (asked : CompanionAsked) → asked_by words.now ≡ Ok (commands.Companion asked)
        → asked.recorded ≡ false → ByCompanion asked
        (source_use S.left S.faults source.old source.new) (sink_use K.holds K.faults sink.old sink.new)
        (outside_use O.told O.counts outside.old outside.new)
        (followers_use F.takes F.heard followers.old followers.new) result }

    // A companion that records its run: the same, but that the sink gains the record of the calls.
    ensures record_companion { (asked : CompanionAsked) → asked_by words.now ≡ Ok (commands.Companion asked)
        → asked.recorded ≡ true → ByRecord asked
        (sink_use K.holds K.faults sink.old sink.new) (outside_use O.told O.counts outside.old outside.new) result }

    // A television by its script: each call is the one that is due.
    ensures tv { (asked : TvAsked) → asked_by words.now ≡ Ok (commands.Tv asked) → ByTv asked
        (source_use S.left S.faults source.old source.new)
        (outside_use O.told O.counts outside.old outside.new) result }

    // A companion beside a child: as `companion`, without a sheet; the child has the script's bytes.
    ensures pair { (asked : PairAsked) → asked_by words.now ≡ Ok (commands.Pair asked) → ByPair asked
        (source_use S.left S.faults source.old source.new) (sink_use K.holds K.faults sink.old sink.new)
        (outside_use O.told O.counts outside.old outside.new)
        (spawner_use P.told P.running P.faults spawner.old spawner.new)
        (followers_use F.takes F.heard followers.old followers.new) result }

    // A relay: it listens, and then makes visits, in each of which every call is the one that is due.
    ensures relay { (asked : RelayAsked) → asked_by words.now ≡ Ok (commands.Relay asked)
        → ByRelay asked (outside_use O.told O.counts outside.old outside.new) result }

    // A companion that stays: visits, one after another, and the lines of what happened in each of them.
    ensures watch { (asked : WatchAsked) → asked_by words.now ≡ Ok (commands.Watch asked) → ByWatch asked
        (sink_use K.holds K.faults sink.old sink.new) (outside_use O.told O.counts outside.old outside.new) result }

    // The schedule of a seed, which a replay accepts.
    ensures generate { (asked : GeneratorAsked) → asked_by words.now ≡ Ok (commands.Generate asked)
        → ByGenerate asked (sink_use K.holds K.faults sink.old sink.new) result }

    // How many reports a replay of this schedule prints, how many of them are intervals, and the widest of these.
    ensures survey { (asked : GeneratorAsked) → asked_by words.now ≡ Ok (commands.Survey asked)
        → BySurvey asked (sink_use K.holds K.faults sink.old sink.new) result }

    // A fault is told only where the device has failed. A failure of the spawner yields to the companion's status, and
    // of dials it is told where every one failed; no other failure of a device goes untold.
    ensures counted_reads { CountsReads (S.faults source.old) (S.faults source.new) result }
    ensures counted_writes { CountsWrites (K.faults sink.old) (K.faults sink.new) result }
    ensures counted_calls { CountsCalls (O.counts outside.old).faults (O.counts outside.new).faults result }
    ensures counted_dials { CountsDials (O.counts outside.old).dial_faults
        (O.counts outside.new).dial_faults result }
    ensures counted_spawns { CountsSpawns (P.faults spawner.old) (P.faults spawner.new) result }
{
    run_asked(alloc, words, source, sink, outside, spawner, followers)
}
