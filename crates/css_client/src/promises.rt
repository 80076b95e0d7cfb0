ghost use Rattle.std.specs.Prelude.{◌≡◌, ◌≤◌, ◌<◌, [], ◌∷◌, not, nat_lt, false, true};
ghost use Rattle.std.specs.Prelude.{is_some, if◌then◌else◌, OnErr, IfOk, IfSome, All};
ghost use Rattle.std.specs.List.{filter};
ghost use Rattle.std.specs.BTreeMap.{get, keys, btree_map_len, insert_entry, IsOrdered};
ghost use Rattle.css_model.specs.Wire as wire;
ghost use Rattle.css_client.specs.Clients.{exchange_cmp, first_landed, without_promise, asked_since, Adds};

use css_model::{LIMIT, Stamp};
use css_num::Memory;
use css_wc::reading;
use std::alloc::Global;
use std::collections::BTreeMap;
use std::collections::btree_map::Entry;
use std::marker::Model;

/// A response that promised a follow-up.
#[derive(Clone, Copy, Debug, PartialEq, Eq)]
pub(crate) struct Promise {
    /// The originate value of the response.
    pub(crate) originate: Stamp,
    /// Its receive value.
    pub(crate) receive: Stamp,
    /// The reading at its landing.
    pub(crate) landed: u64,
}

/// What a response and its follow-up have in common.
#[derive(Clone, Copy, Debug, PartialEq, Eq, PartialOrd, Ord)]
pub(crate) struct Exchange {
    /// The companion's reading in the request.
    asked: u64,
    /// The television's reading when it received that.
    received: u64,
}

/// When the first response of each exchange landed, of those that promised follow-ups. Contracts see a list of them, in
/// the order of the requests.
///
/// Of each pair of values one is kept, and none of a request to which no answer may come any more. So only a flood of
/// such responses, to one request and with ever new receive values, makes it grow.
#[derive(Drop)]
pub(crate) struct Promises {
    landings: BTreeMap<Exchange, u64>,
}

impl Model for Promises {
    ghost use Rattle.std.specs.Prelude.{List, map, All, ◌<◌, ◌*◌, ◌^◌};
    ghost use Rattle.css_model.specs.Wire.{second};
    ghost use Rattle.css_client.specs.Clients.{promise_of};
    ghost use Rattle.css_client.specs.declared.promises.Promise.{Promise as Remembered};

    ghost Value = { List Remembered };

    ghost view = { λ p. map promise_of p.landings.entries };

    ghost invariant = { λ p. All (λ e. e.1 < 2 ^ 32 * second) p.landings.entries };
}

impl Promises {
    pub(crate) fn new(alloc: Global) -> Promises
        ensures { result ≡ [] }
    {
        Promises {
            landings: BTreeMap::new(alloc),
        }
    }

    /// Whether there is none: so it mostly is, where the television sends no follow-ups.
    pub(crate) fn are_none(&self) -> bool
        ensures { result ≡ true → self.now ≡ [] }
    {
        self.landings.is_empty()
    }

    /// When the first response with these values landed.
    pub(crate) fn first(&self, originate: Stamp, receive: Stamp) -> Option<u64>
        requires originate { originate.nanoseconds < wire.second }
        requires receive { receive.nanoseconds < wire.second }
        ensures value { result ≡ first_landed originate receive self.now }
        ensures range { IfSome result (λ landed. landed < LIMIT) }
    {
        self.landings.get(&exchange_of(originate, receive)).copied()
    }

    /// Remembers a response unless an earlier one has its values, and tells whether it does.
    pub(crate) fn note(&mut self, promise: Promise) -> Result<bool, Memory>
        requires originate { promise.originate.nanoseconds < wire.second }
        requires receive { promise.receive.nanoseconds < wire.second }
        requires landed { promise.landed < LIMIT }
        ensures ok { IfOk result (λ is_new. Adds promise self.old self.new) }
        ensures undone { IfOk result (λ is_new. self.old
            ≡ (if is_new then without_promise promise.originate promise.receive self.new else self.new)) }
        ensures err { OnErr result (self.new ≡ self.old) }
    {
        let exchange = exchange_of(promise.originate, promise.receive);
        insert_first(&mut self.landings, exchange, promise.landed)
    }

    /// Forgets the response with these values.
    pub(crate) fn take_back(&mut self, originate: Stamp, receive: Stamp)
        requires originate { originate.nanoseconds < wire.second }
        requires receive { receive.nanoseconds < wire.second }
        ensures { self.new ≡ without_promise originate receive self.old }
    {
        let _ = self.landings.remove(&exchange_of(originate, receive));
    }

    /// Forgets the responses to requests from before a reading.
    pub(crate) fn forget_before(&mut self, oldest: u64)
        ensures { self.new ≡ asked_since oldest self.old }
    {
        drop_before(&mut self.landings, oldest);
    }

    pub(crate) fn clear(&mut self)
        ensures { self.new ≡ [] }
    {
        self.landings.clear();
    }
}

/// Enters when the first response of an exchange landed, unless that is known, and tells whether it did.
fn insert_first(
    landings: &mut BTreeMap<Exchange, u64>,
    exchange: Exchange,
    landed: u64,
) -> Result<bool, Memory>
    ensures new { IfOk result (λ is_new. is_new ≡ not (is_some (get exchange_cmp landings.old exchange))) }
    ensures ok { IfOk result (λ is_new. landings.new.entries
        ≡ (if is_new then insert_entry exchange_cmp landings.old.entries exchange landed else landings.old.entries)) }
    ensures ordered { IsOrdered exchange_cmp landings.new }
    ensures err { OnErr result (landings.new.entries ≡ landings.old.entries) }
{
    match landings.entry(exchange)? {
        Entry::Occupied(_) => Ok(false),
        Entry::Vacant(place) => {
            place.insert(landed);
            Ok(true)
        }
    }
}

fn exchange_of(originate: Stamp, receive: Stamp) -> Exchange
    requires originate { originate.nanoseconds < wire.second }
    requires receive { receive.nanoseconds < wire.second }
    ensures asked { wire.stamp_of result.asked ≡ originate }
    ensures received { wire.stamp_of result.received ≡ receive }
{
    Exchange {
        asked: reading(originate),
        received: reading(receive),
    }
}

/// Drops the exchanges whose requests are from before a reading. They stand first.
fn drop_before(landings: &mut BTreeMap<Exchange, u64>, oldest: u64)
    ensures { landings.new.entries ≡ filter (λ e. not (nat_lt e.0.asked oldest)) landings.old.entries }
{
    while starts_before(landings, oldest) {
        let _ = landings.pop_first();
    }
}

/// Whether the first exchange has a request from before a reading.
fn starts_before(landings: &BTreeMap<Exchange, u64>, oldest: u64) -> bool
    ensures some { result ≡ true → 0 < btree_map_len landings.now }
    ensures first { (first : _) (others : _) → result ≡ true → landings.now.entries ≡ first ∷ others
        → first.0.asked < oldest }
    ensures none { result ≡ false → All (λ exchange. oldest ≤ exchange.asked) (keys landings.now) }
{
    match landings.first_key_value() {
        Some((exchange, _)) => exchange.asked < oldest,
        None => false,
    }
}
