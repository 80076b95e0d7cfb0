ghost use Rattle.std.specs.Prelude.{◌≡◌, ◌<◌, ◌≤◌, ◌↔◌, Contains, IfSome, position, ◌==◌, min, ◌+◌, ◌++◌, ◌∷◌};
ghost use Rattle.std.specs.Prelude.{[], Some, None, Err, drop, take, length, IfOk, OnOk, OnErr, IsTrue};
ghost use Rattle.css_model.specs.History.{Entry, Listening, Sent, HungUp, Dialling, Dialled};
ghost use Rattle.css_model.specs.declared.Kind.TheVariants as kinds;
ghost use Rattle.css_memory.specs.Failing.{next_count};
ghost use Rattle.css_model.specs.declared.TheConstants.{LIMIT};
ghost use Rattle.css_outside.specs.Outsides.{IsNextReading, IsSession, OpensNext, FitsRoom, datagram_entries};
ghost use Rattle.css_memory.specs.Scripts as scripts;
ghost use Rattle.css_memory.specs.declared.scripted.Note.TheVariants as notes_made;
ghost use Rattle.css_memory.specs.Scripts.{history_of, entries_of, are_readings, are_sessions, telling};

use crate::places::past;
use crate::script::{OutsideScript, SessionHeard};
use css_model::{Kind, Why};
use css_num::{Memory, Text};
use css_outside::{Address, Clocked, Failure, Heard, OutFault, Wrote};
use std::alloc::Global;
use std::marker::Model;

/// A call that told something.
pub enum Note {
    Listened(Text, u16),
    Read(Why, Clocked),
    Dialled(Kind, Address, u32),
    NotDialled(Kind, Address, Failure),
    Came(Option<(u32, Kind)>),
    Sent(u32, Text),
    Took(u32, Text),
    TookNone,
    Said(u32, Heard),
    Wrote(u32, Text, Wrote),
    HungUp(u32),
}

// One function drops it, so that its callers' proofs don't open each of its fields.
impl Drop for Note {
    fn drop(self) {
        match self {
            Note::Listened(_, _)
            | Note::Read(_, _)
            | Note::Dialled(_, _, _)
            | Note::NotDialled(_, _, _)
            | Note::Came(_)
            | Note::Sent(_, _)
            | Note::Took(_, _)
            | Note::TookNone
            | Note::Said(_, _)
            | Note::Wrote(_, _, _)
            | Note::HungUp(_) => {}
        }
    }
}

/// The devices of an outside in memory, none of which fails. They note what was done.
pub struct Devices {
    alloc: Global,
    script: OutsideScript,
    failures: Vec<Failure>,
    notes: Vec<Note>,
    sessions: Vec<u32>,
    read: usize,
    taken: usize,
    opened: usize,
    sends: u64,
    calls: u64,
    last: u64,
    peers: u32,
}

// One function drops it, so that its callers' proofs don't open each of its fields.
impl Drop for Devices {
    fn drop(self) {
        let Devices {
            alloc: _,
            script: _,
            failures: _,
            notes: _,
            sessions: _,
            read: _,
            taken: _,
            opened: _,
            sends: _,
            calls: _,
            last: _,
            peers: _,
        } = self;
    }
}

impl Model for Devices {
    ghost use Rattle.std.specs.Prelude.{◌≤◌, ◌<◌, drop, length, IsTrue};
    ghost use Rattle.css_model.specs.declared.TheConstants.{LIMIT};
    ghost use Rattle.css_memory.specs.Scripts.{Scripted, IsScripted, history_of};

    ghost Value = { Scripted };

    ghost view = { λ d. record {
      readings = drop d.read d.script.readings.items;
      datagrams = drop d.taken d.script.datagrams.items;
      openings = drop d.opened d.script.openings.items;
      texts = d.script.texts.items;
      gone = d.script.gone.items;
      fails = d.script.fails.items;
      failures = d.failures.items;
      calls = d.calls;
      sends = d.sends;
      sessions = d.sessions.items;
      last = d.last;
      peers = d.peers;
      told = history_of d.notes.items;
    } };

    ghost invariant = { λ d. IsScripted d.read d.taken d.opened d.last d.script.readings.items d.script.datagrams.items
        d.script.openings.items };
}

/// An equal address.
fn copied(to: &Address) -> Result<Address, Memory>
    ensures { IfOk result (λ copy. copy ≡ to.now) }
{
    Ok(Address {
        host: to.host.clone()?,
        port: to.port,
        path: to.path.clone()?,
    })
}

/// Notes a call.
fn add_note(notes: &mut Vec<Note>, made: Note) -> Result<(), Memory>
    ensures ok { OnOk result (history_of notes.new.items ≡ entries_of made ++ history_of notes.old.items) }
    ensures err { OnErr result (notes.new.items ≡ notes.old.items) }
{
    notes.push(made)?;
    Ok(())
}

/// Notes a call that opened a session, and keeps its peer.
fn add_session(
    notes: &mut Vec<Note>,
    sessions: &mut Vec<u32>,
    peer: u32,
    made: Note,
) -> Result<(), Memory>
    ensures noted { OnOk result (history_of notes.new.items ≡ entries_of made ++ history_of notes.old.items) }
    ensures kept { OnOk result (sessions.new.items ≡ sessions.old.items ++ peer ∷ []) }
    ensures err { OnErr result ((notes.new.items ≡ notes.old.items) × (sessions.new.items ≡ sessions.old.items)) }
{
    let count = sessions.len();
    sessions.push(peer)?;
    let noted = add_note(notes, made);
    if noted.is_err() {
        sessions.truncate(count);
    }
    noted
}

/// Notes a dial, and keeps the peer of a session of CSS-CII or CSS-TS.
fn add_dial(
    notes: &mut Vec<Note>,
    sessions: &mut Vec<u32>,
    kind: Kind,
    to: Address,
    peer: u32,
) -> Result<(), Memory>
    ensures noted { OnOk result
        (history_of notes.new.items ≡ Dialled kind peer ∷ Dialling kind to ∷ history_of notes.old.items) }
    ensures kept { OnOk result (sessions.new.items ≡ scripts.with_session kind peer sessions.old.items) }
    ensures err { OnErr result ((notes.new.items ≡ notes.old.items) × (sessions.new.items ≡ sessions.old.items)) }
{
    let made = Note::Dialled(kind, to, peer);
    match kind {
        Kind::Wc => add_note(notes, made),
        Kind::Cii | Kind::Ts => add_session(notes, sessions, peer, made),
    }
}

/// Moves as much of the bytes as has room into the front of `into`, and tells how much.
fn front(bytes: &[u8], into: &mut [u8; 64]) -> usize
    ensures count { result ≡ min 64 (length bytes.now) }
    ensures moved { take result into.new ≡ take 64 bytes.now }
{
    let count = bytes.len().min(64);
    into[..count].copy_from_slice(&bytes[..count]);
    count
}

/// What a session gives, once more.
fn heard_copied(heard: &Heard) -> Result<Heard, Memory>
    ensures { IfOk result (λ copy. copy ≡ heard.now) }
{
    match heard {
        Heard::Quiet => Ok(Heard::Quiet),
        Heard::Text(text) => Ok(Heard::Text(text.clone()?)),
        Heard::Closed => Ok(Heard::Closed),
    }
}

/// How many sessions were opened before a peer's, if it has one.
fn sessions_before(sessions: &[u32], peer: u32) -> Option<usize>
    ensures value { result ≡ position (λ other. other == peer) sessions.now }
    ensures within { IfSome result (λ before. before < length sessions.now) }
{
    sessions.iter().position(|other| *other == peer)
}

/// The place of the next text of the session that is the one after so many.
fn place_in(texts: &[SessionHeard], before: usize) -> Option<usize>
    requires { before < usize.MAX }
    ensures value { result ≡ scripts.place_in texts.now before }
    ensures within { IfSome result (λ place. place < length texts.now) }
{
    texts
        .iter()
        .position(|text| text.session as usize == before + 1)
}

/// The place of the next text of a peer's session, if there is one.
fn next_place(texts: &[SessionHeard], sessions: &[u32], peer: u32) -> Option<usize>
    ensures value { result ≡ scripts.next_place peer texts.now sessions.now }
    ensures within { IfSome result (λ place. place < length texts.now) }
{
    match sessions_before(sessions, peer) {
        None => None,
        Some(before) => place_in(texts, before),
    }
}

/// The reading at a place; past the end the last one is told again, without a sleep.
fn next_clocked(readings: &[Clocked], at: usize, last: u64) -> Clocked
    requires within { at ≤ length readings.now }
    requires rising { IsTrue (are_readings last (drop at readings.now)) }
    requires below { last < LIMIT }
    ensures value { result ≡ scripts.next_reading last (drop at readings.now) }
    ensures next { IsNextReading last result }
    ensures rising { IsTrue (are_readings result.reading (drop 1 (drop at readings.now))) }
{
    if at < readings.len() {
        readings[at]
    } else {
        Clocked {
            reading: last,
            slept: false,
        }
    }
}

/// The opening at a place, and none past the end.
fn next_opening(openings: &[Option<Kind>], at: usize) -> Option<Kind>
    requires within { at ≤ length openings.now }
    requires sessions { IsTrue (are_sessions (drop at openings.now)) }
    ensures value { result ≡ scripts.next_item (drop at openings.now) }
    ensures session { IfSome result IsSession }
    ensures sessions { IsTrue (are_sessions (drop 1 (drop at openings.now))) }
{
    if at < openings.len() {
        openings[at]
    } else {
        None
    }
}

/// What the next dial that fails tells.
fn next_failure(failures: &[Failure]) -> Failure
    ensures { result ≡ scripts.next_failure failures.now }
{
    match failures.first() {
        None => Failure::Other,
        Some(failure) => *failure,
    }
}

impl Devices {
    /// The devices that give what the script says.
    pub fn new(alloc: Global, script: OutsideScript) -> Devices
        requires readings { IsTrue (are_readings 0 script.readings.items) }
        requires openings { IsTrue (are_sessions script.openings.items) }
        ensures { result ≡ scripts.begun script }
    {
        Devices {
            alloc,
            script,
            failures: Vec::new(alloc),
            notes: Vec::new(alloc),
            sessions: Vec::new(alloc),
            read: 0,
            taken: 0,
            opened: 0,
            sends: 0,
            calls: 0,
            last: 0,
            peers: 0,
        }
    }

    /// Counts the next call, and tells whether it is to fail.
    pub fn next_fails(&mut self) -> bool
        ensures fails { IsTrue result ↔ Contains self.old.fails (next_count self.old.calls) }
        ensures counted { self.new ≡ record self.old { calls = next_count self.old.calls } }
    {
        self.calls = self.calls.saturating_add(1);
        self.script.fails.contains(&self.calls)
    }

    pub fn listen(&mut self, host: &Text, port: u16) -> Result<(), Memory>
        ensures ok { OnOk result (self.new ≡ telling (Listening host.now port ∷ []) self.old) }
        ensures err { OnErr result (self.new ≡ self.old) }
    {
        let host = host.clone()?;
        add_note(&mut self.notes, Note::Listened(host, port))
    }

    pub fn now(&mut self, why: Why) -> Result<Clocked, Memory>
        ensures value { IfOk result (λ clocked. clocked ≡ scripts.next_reading self.old.last self.old.readings) }
        ensures ok { OnOk result (self.new ≡ scripts.read_once why self.old) }
        ensures next { IfOk result (IsNextReading self.old.last) }
        ensures err { OnErr result (self.new ≡ self.old) }
    {
        let clocked = next_clocked(&self.script.readings, self.read, self.last);
        add_note(&mut self.notes, Note::Read(why, clocked))?;
        self.read = past(&self.script.readings, self.read);
        self.last = clocked.reading;
        Ok(clocked)
    }

    pub fn dial(&mut self, kind: Kind, to: &Address) -> Result<u32, Memory>
        ensures value { IfOk result (λ peer. peer ≡ self.old.peers + 1) }
        ensures ok { OnOk result (self.new ≡ scripts.dialled kind to.now self.old) }
        ensures err { OnErr result (self.new ≡ self.old) }
    {
        let Some(peer) = self.peers.checked_add(1) else {
            return Err(Memory);
        };
        let to = copied(to)?;
        add_dial(&mut self.notes, &mut self.sessions, kind, to, peer)?;
        self.peers = peer;
        Ok(peer)
    }

    /// Takes what each dial that fails from now on tells, in order.
    pub fn fail_by(&mut self, failures: Vec<Failure>)
        ensures { self.new ≡ record self.old { failures = failures.items } }
    {
        self.failures = failures;
    }

    /// Notes a dial that failed, and tells what the system said of it.
    pub fn fail_dial(&mut self, kind: Kind, to: &Address) -> Result<Failure, Memory>
        ensures value { IfOk result (λ failure. failure ≡ scripts.next_failure self.old.failures) }
        ensures ok { OnOk result (self.new ≡ scripts.dial_failed kind to.now self.old) }
        ensures err { OnErr result (self.new ≡ self.old) }
    {
        let to = copied(to)?;
        let failure = next_failure(&self.failures);
        add_note(&mut self.notes, Note::NotDialled(kind, to, failure))?;
        if !self.failures.is_empty() {
            self.failures.remove(0);
        }
        Ok(failure)
    }

    pub fn accept(&mut self) -> Result<Option<(u32, Kind)>, Memory>
        ensures value { IfOk result (λ came. came ≡ scripts.next_opening self.old) }
        ensures next { IfOk result (OpensNext self.old.peers self.new.peers) }
        ensures ok { OnOk result (self.new ≡ scripts.opened_once self.old) }
        ensures err { OnErr result (self.new ≡ self.old) }
    {
        let Some(kind) = next_opening(&self.script.openings, self.opened) else {
            add_note(&mut self.notes, Note::Came(None))?;
            self.opened = past(&self.script.openings, self.opened);
            return Ok(None);
        };
        let Some(peer) = self.peers.checked_add(1) else {
            return Err(Memory);
        };
        let made = Note::Came(Some((peer, kind)));
        add_session(&mut self.notes, &mut self.sessions, peer, made)?;
        self.opened = past(&self.script.openings, self.opened);
        self.peers = peer;
        Ok(Some((peer, kind)))
    }

    pub fn send_datagram(&mut self, peer: u32, bytes: &[u8; 32]) -> Result<(), Memory>
        ensures ok { OnOk result (self.new ≡ telling (Sent peer bytes.now ∷ []) self.old) }
        ensures err { OnErr result (self.new ≡ self.old) }
    {
        let bytes = Text::of(self.alloc, bytes)?;
        add_note(&mut self.notes, Note::Sent(peer, bytes))
    }

    pub fn take_datagram(&mut self, into: &mut [u8; 64]) -> Result<Option<(u32, usize)>, Memory>
        ensures value { IfOk result (λ came. came ≡ scripts.taken_from (scripts.next_item self.old.datagrams)) }
        ensures entries { IfOk result
            (λ came. datagram_entries into.new came ≡ scripts.taking (scripts.next_item self.old.datagrams)) }
        ensures room { IfOk result FitsRoom }
        ensures ok { OnOk result (self.new ≡ scripts.took_once self.old) }
        ensures err { OnErr result (self.new ≡ self.old) }
    {
        if self.taken >= self.script.datagrams.len() {
            add_note(&mut self.notes, Note::TookNone)?;
            return Ok(None);
        }
        let Some(datagram) = &self.script.datagrams[self.taken] else {
            add_note(&mut self.notes, Note::TookNone)?;
            self.taken += 1;
            return Ok(None);
        };
        let peer = datagram.peer;
        let count = front(datagram.bytes.bytes(), into);
        let bytes = Text::of(self.alloc, &into[..count])?;
        add_note(&mut self.notes, Note::Took(peer, bytes))?;
        self.taken += 1;
        Ok(Some((peer, count)))
    }

    pub fn take_text(&mut self, peer: u32) -> Result<Heard, Memory>
        ensures value { IfOk result (λ said. said ≡ scripts.next_heard peer self.old) }
        ensures ok { OnOk result (self.new ≡ scripts.heard_once peer self.old) }
        ensures err { OnErr result (self.new ≡ self.old) }
    {
        let next = next_place(&self.script.texts, &self.sessions, peer);
        let Some(place) = next else {
            add_note(&mut self.notes, Note::Said(peer, Heard::Quiet))?;
            return Ok(Heard::Quiet);
        };
        let heard = heard_copied(&self.script.texts[place].heard)?;
        add_note(&mut self.notes, Note::Said(peer, heard))?;
        let said = self.script.texts.remove(place);
        Ok(said.heard)
    }

    pub fn send_text(&mut self, peer: u32, text: &[u8]) -> Result<Wrote, Memory>
        ensures value { IfOk result (λ wrote. wrote ≡ scripts.next_wrote self.old) }
        ensures ok { OnOk result (self.new ≡ scripts.wrote_once peer text.now self.old) }
        ensures err { OnErr result (self.new ≡ self.old) }
    {
        let number = self.sends.saturating_add(1);
        let wrote = if self.script.gone.contains(&number) {
            Wrote::Gone
        } else {
            Wrote::Sent
        };
        let text = Text::of(self.alloc, text)?;
        add_note(&mut self.notes, Note::Wrote(peer, text, wrote))?;
        self.sends = number;
        Ok(wrote)
    }

    pub fn hang_up(&mut self, peer: u32) -> Result<(), Memory>
        ensures ok { OnOk result (self.new ≡ telling (HungUp peer ∷ []) self.old) }
        ensures err { OnErr result (self.new ≡ self.old) }
    {
        add_note(&mut self.notes, Note::HungUp(peer))
    }
}
