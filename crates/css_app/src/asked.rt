//! What the words of a command line ask for: the runs of the commands that have options.
ghost use Rattle.std.specs.Prelude.{◌≡◌, ◌≤◌, ◌≤ℤ◌, pos, IfOk, unwrap_or};
ghost use Rattle.std.specs.Str.{IsUtf8};
ghost use Rattle.css_drive.specs.Configs as drive;
ghost use Rattle.css_drive_relay.specs.Ran as relay;
ghost use Rattle.css_model.specs.Numbers.{max_error};
ghost use Rattle.css_outside.specs.Limits.{IsLimit};
ghost use Rattle.css_watch.specs.Configs as watch;
ghost use Rattle.css_words.specs.Companion.{options_of};
ghost use Rattle.css_words.specs.Relay.{relay_of};
ghost use Rattle.css_words.specs.Tv.{tv_of};
ghost use Rattle.css_words.specs.Watch.{watch_of};
ghost use Rattle.css_words.specs.Written.{AreWritable};
ghost use Rattle.css_app.specs.Commands.{IsAskedRelay, IsAskedRun, IsAskedWatch, asked_child, asked_drive};
ghost use Rattle.css_app.specs.Ended.{CanBeDrawn};
ghost use Rattle.css_app.specs.Live as live;

use crate::live_pair::{Child, address_at};
use css_client::Local;
use css_companion::CompanionConfig;
use css_drive::{DriveConfig, TvDrive};
use css_drive_relay::RelayRun;
use css_num::{Memory, Text};
use css_outside::Address;
use css_tv::TvConfig;
use css_watch::WatchConfig;
use css_words::{CompanionOptions, GeneratorWords, PairWords, RelayWords, TvWords, WatchWords};
use std::alloc::Global;

/// The run of a companion with these options, which dials this address.
pub(crate) fn run_of(options: CompanionOptions, cii: Address) -> DriveConfig
    requires { AreWritable options }
    ensures asked { IsAskedRun (options_of options) cii result }
    ensures writable { drive.IsWritable result }
{
    DriveConfig {
        companion: CompanionConfig {
            selector: options.selector,
            stem: options.stem,
            local: Local {
                error: options.local_error,
                precision: options.local_precision,
            },
        },
        cii,
        reports: options.reports,
        limit: options.limit,
        report_every: options.report_every,
        ask_every: options.ask_every,
        present: options.present,
    }
}

/// The television's run that these words ask for.
pub(crate) fn tv_run_of(words: TvWords) -> TvDrive
    requires { IsUtf8 words.host }
    ensures asked { result ≡ asked_drive (tv_of words) }
    ensures limit { IsLimit result.limit }
    ensures precision { result.tv.precision ≤ℤ pos 30 }
    ensures error { result.tv.error ≤ max_error }
    ensures host { IsUtf8 result.tv.host }
    ensures port { result.tv.port ≤ 65534 }
{
    TvDrive {
        tv: TvConfig {
            precision: words.precision,
            error: words.error,
            follow: words.follow,
            host: words.host,
            port: words.port,
        },
        limit: words.limit,
        relative: words.relative,
    }
}

/// The run and the child of a pair that these words ask for.
pub(crate) fn pair_run_of(alloc: Global, words: PairWords) -> Result<(DriveConfig, Child), Memory>
    requires { AreWritable words.companion }
    ensures run { IfOk result
        (λ pair. IsAskedRun (options_of words.companion) (live.address_at words.tv.port) pair.0) }
    ensures writable { IfOk result (λ pair. drive.IsWritable pair.0) }
    ensures child { IfOk result (λ pair. pair.1 ≡ asked_child (tv_of words.tv)) }
{
    let PairWords { companion, tv } = words;
    let child = Child {
        port: tv.port,
        precision: tv.precision,
        error: tv.error,
        follow: tv.follow,
        relative: tv.relative,
    };
    drop(tv);
    let cii = address_at(alloc, child.port)?;
    Ok((run_of(companion, cii), child))
}

/// The run of a relay that these words ask for. It wants no timeline, and any content.
pub(crate) fn relay_run_of(alloc: Global, words: RelayWords) -> RelayRun
    requires { IsUtf8 words.host }
    ensures asked { IsAskedRelay (relay_of words) result }
    ensures writable { relay.IsWritable result }
{
    RelayRun {
        companion: CompanionConfig {
            selector: Text::new(alloc),
            stem: Text::new(alloc),
            local: Local {
                error: words.local_error,
                precision: words.local_precision,
            },
        },
        cii: words.cii,
        host: words.host,
        port: words.port,
        limit: words.limit,
        ask_every: words.ask_every,
    }
}

/// The watch that these words ask for.
pub(crate) fn watch_run_of(words: WatchWords) -> WatchConfig
    requires selector { IsUtf8 words.selector }
    requires stem { IsUtf8 words.stem }
    ensures asked { IsAskedWatch (watch_of words) result }
    ensures writable { watch.IsWritable result }
{
    WatchConfig {
        companion: CompanionConfig {
            selector: words.selector,
            stem: words.stem,
            local: Local {
                error: words.local_error,
                precision: words.local_precision,
            },
        },
        cii: words.cii,
        seconds: words.seconds,
        report_every: words.report_every,
        ask_every: words.ask_every,
    }
}

/// How many companions the schedule has that these words ask for: one, where they aren't told.
pub(crate) fn companions_in(words: GeneratorWords) -> u32
    ensures value { result ≡ unwrap_or words.companions 1 }
    ensures drawn { CanBeDrawn result words.lines }
{
    match words.companions {
        Some(companions) => companions,
        None => 1,
    }
}
