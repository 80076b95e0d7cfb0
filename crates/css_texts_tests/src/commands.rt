//! Command lines, what each of them asks for, and what is said of those that are of no command.
use crate::common::{check, words as shown};
use css_words::{
    Address, Bound, Command, CompanionOptions, CompanionWords, GeneratorWords, Limit, PairWords,
    RelayWords, TvWords, WatchWords, command_of, complaint,
};
use std::alloc::{AllocError, Global};
use std::process::Abort;

/// Command lines, and what they ask for. `DEFAULTS` stands for the numbers of a companion that is told none.
const COMMANDS: &str = "\
replay => replay
agree => agree
agree --pairs => agree pairs
audit => audit
migrate => migrate
generate --seed 7 --lines 9 => generate 7 9
survey --lines=200000 --seed=9223372036854775807 => survey 9223372036854775807 200000
generate --seed 1 --lines 16 --companions 2 => generate 1 16 2
tv => tv 6677 10000 -20 128000 false 127.0.0.1
tv --follow --host [::1] => tv 6677 10000 -20 128000 true [::1]
tv --port 1024 --turns=1 --precision=-128 --error 0 => tv 1024 1 -128 0 false 127.0.0.1
tv --error=25600000 --precision 30 --turns 1000000 --port=65534 => tv 65534 1000000 30 25600000 false 127.0.0.1
tv --seconds 31536000 => tv 6677 31536000s -20 128000 false 127.0.0.1
tv --relative => tv 6677 10000 -20 128000 false 127.0.0.1 relative
companion --cii ws://tv.local => companion tv.local 80 / urn:dvb:css:timeline:pts '' DEFAULTS always
companion --cii=ws://127.0.0.1:6677/cii?a=b --reports 2 --turns 4 --report-every 10 --ask-every 1000 \
--local-error 0 --local-precision 0 => companion 127.0.0.1 6677 /cii?a=b \
urn:dvb:css:timeline:pts '' 2 4 10 1000 0 0 always
companion --cii ws://[::1]:1/ --selector=-é --stem dvb:// --reports=1000000 --turns=1000000 \
--report-every=1000000000000 --ask-every=1000000000000 --local-error=2560000 --local-precision=1000000000 \
=> companion [::1] 1 / -é 'dvb://' 1000000 1000000 1000000000000 1000000000000 2560000 1000000000 always
companion --cii ws://h --earliest 5,0 --latest=-6,9223372036854775807 => companion h 80 / \
urn:dvb:css:timeline:pts '' DEFAULTS 5,0 -6,9223372036854775807
companion --latest 999999999999999999,plusinfinity --earliest=-999999999999999999,minusinfinity --cii ws://h \
--selector= --stem= => companion h 80 /  '' DEFAULTS -999999999999999999,- 999999999999999999,+
companion --record --cii ws://h => companion h 80 / urn:dvb:css:timeline:pts '' DEFAULTS always recorded
companion --record --seconds=1 --cii ws://h => companion h 80 / urn:dvb:css:timeline:pts '' \
10 1s 1000000000 1000000000 128000 1000 always recorded
companion --cii ws://h --selector=!~ --record --stem=-- => companion h 80 / !~ '--' DEFAULTS always recorded
companion --cii ws://h --selector=é --stem=- => companion h 80 / é '-' DEFAULTS always
relay --cii ws://tv:6677/cii => relay tv 6677 /cii 6690 10000 1000000000 128000 1000 127.0.0.1
relay --cii ws://tv:6677/cii --port 1024 --turns 1 --ask-every 1 --local-error 0 --local-precision 0 => \
relay tv 6677 /cii 1024 1 1 0 0 127.0.0.1
relay --port=65534 --turns=1000000 --ask-every=1000000000000 --local-error=2560000 --local-precision=1000000000 \
--host=[::1] --cii=ws://tv:6677/cii => relay tv 6677 /cii 65534 1000000 1000000000000 2560000 1000000000 [::1]
relay --cii ws://tv:6677/cii --seconds 60 => relay tv 6677 /cii 6690 60s 1000000000 128000 1000 127.0.0.1
watch --cii ws://tv.local => watch tv.local 80 / urn:dvb:css:timeline:pts '' 86400 1000000000 1000000000 128000 1000
watch --cii=ws://h --selector urn:dvb:css:timeline:temi:1:1 => watch h 80 / \
urn:dvb:css:timeline:temi:1:1 '' 86400 1000000000 1000000000 128000 1000
watch --stem dvb: --cii=ws://h => watch h 80 / urn:dvb:css:timeline:pts 'dvb:' 86400 1000000000 1000000000 128000 1000
watch --cii ws://h --seconds 60 => watch h 80 / urn:dvb:css:timeline:pts '' 60 1000000000 1000000000 128000 1000
watch --cii ws://h --report-every 200 => watch h 80 / urn:dvb:css:timeline:pts '' 86400 200 1000000000 128000 1000
watch --cii ws://h --ask-every 50 => watch h 80 / urn:dvb:css:timeline:pts '' 86400 1000000000 50 128000 1000
watch --cii ws://h --local-error 7 => watch h 80 / urn:dvb:css:timeline:pts '' 86400 1000000000 1000000000 7 1000
watch --cii ws://h --local-precision 9 => watch h 80 / urn:dvb:css:timeline:pts '' 86400 1000000000 1000000000 128000 9
watch --local-precision 0 --local-error=0 --ask-every 1 --report-every=1 --seconds 1 --stem=- --selector= \
--cii ws://[::1]:6677/cii?a=b => watch [::1] 6677 /cii?a=b  '-' 1 1 1 0 0
watch --cii=ws://h --selector=-é --stem= --seconds=31536000 --report-every 1000000000000 --ask-every=1000000000000 \
--local-error 2560000 --local-precision=1000000000 => watch h 80 / -é '' \
31536000 1000000000000 1000000000000 2560000 1000000000
pair => pair 6677 10000 -20 128000 false 127.0.0.1 urn:dvb:css:timeline:pts '' DEFAULTS always
pair --reports 5 --report-every 200000000 --ask-every 50000000 --turns 2000 --follow --port=7000 --precision=-10 \
--error 1 --stem=dvb: --earliest=0,0 --latest=1,plusinfinity => pair 7000 2000 -10 1 true 127.0.0.1 \
urn:dvb:css:timeline:pts 'dvb:' 5 2000 200000000 50000000 128000 1000 0,0 1,+
pair --seconds=5 --relative => pair 6677 5s -20 128000 false 127.0.0.1 relative \
urn:dvb:css:timeline:pts '' 10 5s 1000000000 1000000000 128000 1000 always";

const DEFAULTS: &str = "10 10000 1000000000 1000000000 128000 1000";

/// Words that begin with the name of no command.
const NO_COMMAND: &str = "\
reply

--help
-";

/// Words that no command takes, and what is said of them.
const COMPLAINTS: &str = "\
replay -- => stray word: --
replay x => stray word: x
agree --seed 7 => no such option: --seed
agree --pairs --pairs => --pairs is given twice
agree --pairs=1 => --pairs takes no value
agree pairs => stray word: pairs
audit --record => no such option: --record
migrate --companions 2 => no such option: --companions
generate => --seed is missing
generate --seed 7 => --lines is missing
generate --lines 8 --seed 7 => --lines: 8 isn't from 9 to 200000
generate --lines 15 --seed 7 --companions 2 => --lines: 15 isn't from 16 to 200000
survey --lines 8 --seed 7 --companions 17 => --companions: 17 isn't from 2 to 16
generate --seed +7 --lines 9 => --seed: +7 has a sign
generate --seed 007 --lines 9 => --seed: 007 has zeros before its digits
generate --seed 9223372036854775808 --lines 9 => --seed: 9223372036854775808 isn't from 0 to 9223372036854775807
generate --seed 7 --lines => --lines has no value
generate --seed=7 --seed=7 --lines=9 => --seed is given twice
generate --see 7 --lines 9 => no such option: --see
tv x --turns 0 => stray word: x
tv --help => no such option: --help
tv --turns=-1 => --turns: -1 has a sign
tv --turns= => --turns is empty
tv --seconds 1 --turns 5 => --seconds and --turns exclude each other
tv --seconds 0 --port 65535 => --port: 65535 isn't from 1024 to 65534
tv --turns 1000001 => --turns: 1000001 isn't from 1 to 1000000
tv --error 25600001 => --error: 25600001 isn't from 0 to 25600000
tv --seconds 31536001 => --seconds: 31536001 isn't from 1 to 31536000
tv --precision=-129 => --precision: -129 isn't from -128 to 30
tv --precision=-01 => --precision: -01 has zeros before its digits
tv --precision=x => --precision: x isn't from -128 to 30
tv --precision -20 => no such option: -2
tv --follow=true => --follow takes no value
tv --follow --follow => --follow is given twice
tv --host= => --host is empty
tv --host=a b => stray word: b
tv --host ::1 => --host: ::1 needs brackets around IPv6, as [::1]
companion --reports 0 => --cii is missing
companion --cii tv.local => --cii: tv.local is no ws: address
companion --cii wss://h => --cii: no encryption: ws:// alone
companion --cii= => --cii is empty
companion --cii ws://::1:6677/cii => --cii: ws://::1:6677/cii needs brackets around IPv6, as ws://[::1]:6677/cii
companion --cii ws://h --reports 0 --turns 0 => --reports: 0 isn't from 1 to 1000000
companion --cii ws://h --earliest 5,0 => --earliest is without --latest
companion --cii ws://h --latest 5,0 => --latest is without --earliest
companion --cii ws://h --earliest 5 --latest 6,0 => --earliest: 5 isn't TICK,WALL or TICK,minusinfinity
companion --cii ws://h --earliest 5,0 --latest 6 => --latest: 6 isn't TICK,WALL or TICK,plusinfinity
companion --cii ws://h --earliest 5,plusinfinity --latest 6,plusinfinity \
=> --earliest: 5,plusinfinity isn't TICK,WALL or TICK,minusinfinity
companion --cii ws://h --earliest 5,0 --latest 6,minusinfinity \
=> --latest: 6,minusinfinity isn't TICK,WALL or TICK,plusinfinity
companion --cii ws://h --earliest 5,0 --latest 6,9223372036854775808 \
=> --latest: 6,9223372036854775808 isn't TICK,WALL or TICK,plusinfinity
companion --cii ws://h --earliest 1000000000000000000,0 --latest 6,0 \
=> --earliest: 1000000000000000000,0 isn't TICK,WALL or TICK,minusinfinity
companion --cii ws://h --relative => no such option: --relative
companion --record --cii ws://h --selector=é --stem=- => --selector: é can't stand in a record
companion --record --cii ws://h --stem=- => --stem: - can't stand in a record
companion --record --cii ws://h --stem=é => --stem: é can't stand in a record
companion --record --cii ws://h --selector=a\tb => --selector: a\tb can't stand in a record
relay --relative => no such option: --relative
relay --cii ws://h --seconds 0 => --seconds: 0 isn't from 1 to 31536000
relay --cii ws://h --host => --host has no value
relay --cii ws://h --ask-every 1000000000001 => --ask-every: 1000000000001 isn't from 1 to 1000000000000
relay --cii ws://h --host=[ => --host: [ is no host
watch --seconds 0 => --cii is missing
watch --seconds 0 --cii wss://h => --cii: no encryption: ws:// alone
watch --cii http://h => --cii: http://h is no ws: address
watch --report-every 0 --seconds 31536001 --cii ws://h => --seconds: 31536001 isn't from 1 to 31536000
watch --ask-every 0 --report-every 0 --cii ws://h => --report-every: 0 isn't from 1 to 1000000000000
watch --local-error=-1 --ask-every=-5 --cii ws://h => --ask-every: -5 has a sign
watch --local-precision=x --local-error 2560001 --cii ws://h => --local-error: 2560001 isn't from 0 to 2560000
watch --cii ws://h --local-precision 1000000001 => --local-precision: 1000000001 isn't from 0 to 1000000000
watch --cii ws://h --seconds= => --seconds is empty
watch --cii ws://h -- => stray word: --
watch --cii ws://h --stem=a --stem=b => --stem is given twice
watch --seconds 0 --turns 5 => no such option: --turns
pair --cii ws://h => no such option: --cii
pair --seconds 2 --turns 2 => --seconds and --turns exclude each other
pair --precision 31 --local-error 2560001 => --local-error: 2560001 isn't from 0 to 2560000";

fn show_bound(out: &mut String, bound: &Bound) -> Result<(), AllocError> {
    match bound {
        Bound::At { content, wall } => write!(out, " {content},{wall}"),
        Bound::MinusInfinity { content } => write!(out, " {content},-"),
        Bound::PlusInfinity { content } => write!(out, " {content},+"),
    }
}

fn show_limit(out: &mut String, limit: Limit) -> Result<(), AllocError> {
    match limit {
        Limit::Turns(turns) => write!(out, " {turns}"),
        Limit::Seconds(seconds) => write!(out, " {seconds}s"),
    }
}

fn show_options(out: &mut String, options: &CompanionOptions) -> Result<(), AllocError> {
    let (selector, stem) = (shown(&options.selector), shown(&options.stem));
    write!(out, " {selector} '{stem}' {}", options.reports)?;
    show_limit(out, options.limit)?;
    let (report_every, ask_every) = (options.report_every, options.ask_every);
    let (error, precision) = (options.local_error, options.local_precision);
    write!(out, " {report_every} {ask_every} {error} {precision}")?;
    let Some((earliest, latest)) = &options.present else {
        return write!(out, " always");
    };
    show_bound(out, earliest)?;
    show_bound(out, latest)
}

fn show_address(out: &mut String, cii: &Address) -> Result<(), AllocError> {
    let (host, path) = (shown(&cii.host), shown(&cii.path));
    write!(out, " {host} {} {path}", cii.port)
}

fn show_tv(out: &mut String, tv: &TvWords) -> Result<(), AllocError> {
    write!(out, " {}", tv.port)?;
    show_limit(out, tv.limit)?;
    let (precision, error, follow, host) = (tv.precision, tv.error, tv.follow, shown(&tv.host));
    let relative = if tv.relative { " relative" } else { "" };
    write!(out, " {precision} {error} {follow} {host}{relative}")
}

fn show_relay(out: &mut String, relay: &RelayWords) -> Result<(), AllocError> {
    show_address(out, &relay.cii)?;
    write!(out, " {}", relay.port)?;
    show_limit(out, relay.limit)?;
    let (every, error) = (relay.ask_every, relay.local_error);
    let (precision, host) = (relay.local_precision, shown(&relay.host));
    write!(out, " {every} {error} {precision} {host}")
}

fn show_watch(out: &mut String, watch: &WatchWords) -> Result<(), AllocError> {
    show_address(out, &watch.cii)?;
    let (selector, stem) = (shown(&watch.selector), shown(&watch.stem));
    let (seconds, report_every, ask_every) = (watch.seconds, watch.report_every, watch.ask_every);
    let (error, precision) = (watch.local_error, watch.local_precision);
    write!(
        out,
        " {selector} '{stem}' {seconds} {report_every} {ask_every} {error} {precision}"
    )
}

fn show_generator(out: &mut String, words: &GeneratorWords) -> Result<(), AllocError> {
    let (seed, lines) = (words.seed, words.lines);
    match words.companions {
        None => write!(out, " {seed} {lines}"),
        Some(count) => write!(out, " {seed} {lines} {count}"),
    }
}

fn show_companion(out: &mut String, words: &CompanionWords) -> Result<(), AllocError> {
    show_address(out, &words.cii)?;
    show_options(out, &words.options)?;
    out.push_str(if words.recorded { " recorded" } else { "" })
}

fn show_pair(out: &mut String, words: &PairWords) -> Result<(), AllocError> {
    show_tv(out, &words.tv)?;
    show_options(out, &words.companion)
}

fn name_of(command: &Command) -> &'static str {
    match command {
        Command::Replay => "replay",
        Command::Agree { .. } => "agree",
        Command::Audit => "audit",
        Command::Migrate => "migrate",
        Command::Companion(_) => "companion",
        Command::Tv(_) => "tv",
        Command::Pair(_) => "pair",
        Command::Generate(_) => "generate",
        Command::Survey(_) => "survey",
        Command::Relay(_) => "relay",
        Command::Watch(_) => "watch",
    }
}

fn show(out: &mut String, command: &Command) -> Result<(), AllocError> {
    out.push_str(name_of(command))?;
    match command {
        Command::Replay | Command::Audit | Command::Migrate => Ok(()),
        Command::Agree { pairs } => out.push_str(if *pairs { " pairs" } else { "" }),
        Command::Companion(words) => show_companion(out, words),
        Command::Tv(words) => show_tv(out, words),
        Command::Pair(words) => show_pair(out, words),
        Command::Generate(words) | Command::Survey(words) => show_generator(out, words),
        Command::Relay(words) => show_relay(out, words),
        Command::Watch(words) => show_watch(out, words),
    }
}

/// What the words ask for, or the fault.
fn told(rt: &impl Abort, alloc: Global, words: &[String]) -> String {
    let mut told = String::new(alloc);
    match command_of(alloc, words) {
        Ok(command) => show(&mut told, &command),
        Err(fault) => write!(told, "{fault}"),
    }
    .expect(rt, "memory");
    told
}

/// The words of a line are separated by spaces.
fn words_of(rt: &impl Abort, alloc: Global, line: &str) -> Vec<String> {
    let mut words = Vec::new(alloc);
    for word in line.split(' ') {
        let word = String::from_str(alloc, word).expect(rt, "memory");
        words.push(word).expect(rt, "memory");
    }
    words
}

/// What the words of a line ask for, and what is said of them, if anything is.
fn check_line(rt: &impl Abort, alloc: Global, line: &str, expected: &str, said: Option<&str>) {
    let words = words_of(rt, alloc, line);
    check(rt, line, &told(rt, alloc, &words), expected);
    let complaint = complaint(alloc, &words);
    let found = complaint.as_ref().map(shown);
    assert!(rt; found == said, "{line}: {found:?} and not {said:?}");
}

#[test]
fn words_ask_for_commands(rt: HostRuntime) {
    let table = COMMANDS.replace(rt.alloc(), "DEFAULTS", DEFAULTS);
    for row in table.expect(&rt, "memory").lines() {
        let (line, expected) = row.split_once(" => ").expect(&rt, "an arrow");
        check_line(&rt, rt.alloc(), line, expected, None);
    }
}

#[test]
fn other_words_are_usage(rt: HostRuntime) {
    check(&rt, "no words", &told(&rt, rt.alloc(), &[]), "usage");
    for line in NO_COMMAND.lines() {
        check_line(&rt, rt.alloc(), line, "usage", None);
    }
    for row in COMPLAINTS.lines() {
        let (line, said) = row.split_once(" => ").expect(&rt, "an arrow");
        check_line(&rt, rt.alloc(), line, "usage", Some(said));
    }
}
