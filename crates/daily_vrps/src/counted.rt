//! VRPs with the length of their CSV, which is counted once.
ghost use Rattle.std.specs.Prelude.{◌≡◌, false, OnErr, OnOk};
ghost use Rattle.payload.specs.VrpSet as set;
ghost use Rattle.daily_vrps.specs.CsvLength.{IsCsvLength};
ghost use Rattle.daily_vrps.specs.steps.Counting.{counted_none, counted_then, HasCounted};

use addr::Vrp;
use csv_records::{payload_header, payload_line_length};
use payload::{PayloadIndex, Sink, Stop, Trie};
use std::alloc::AllocError;
use std::marker::Model;

/// A set of VRPs that keeps the length of its CSV until it changes. Only the set is seen of it.
#[derive(Drop)]
pub struct CountedVrps {
    vrps: Trie,
    csv_length: Option<u64>,
}

impl Model for CountedVrps {
    ghost use Rattle.std.specs.Prelude.{IfSome, Some};
    ghost use Rattle.daily_vrps.specs.CsvLength.{IsCsvLength};
    ghost use Rattle.payload.specs.VrpSet as set;

    ghost Value = { set.VrpSet };

    ghost coded = { set.coded_set };

    ghost view = { λ a. a.vrps };

    ghost invariant = { λ a. IfSome a.csv_length (λ n. IsCsvLength a.vrps (Some n)) };
}

/// The set, not counted yet.
impl From<Trie> for CountedVrps {
    ghost from_gives = { λ vrps counted. counted ≡ vrps };

    fn from(vrps: Trie) -> CountedVrps {
        CountedVrps {
            vrps,
            csv_length: None,
        }
    }
}

impl CountedVrps {
    /// The set.
    pub fn vrps(&self) -> &Trie
        ensures { result.now ≡ self.now }
    {
        &self.vrps
    }

    /// The length in octets of the CSV that has the VRPs, rising, with its header; `None` where a
    /// `u64` does not count it. After `DailyVrps::count` the set is not visited for it until it changes.
    pub fn csv_length(&self) -> Option<u64>
        ensures { IsCsvLength self.now result }
    {
        match self.csv_length {
            Some(length) => Some(length),
            None => csv_length(&self.vrps),
        }
    }

    /// Counts the length of the CSV and keeps it, unless it is kept.
    pub(crate) fn count(&mut self)
        ensures { self.new ≡ self.old }
    {
        self.csv_length = self.csv_length();
    }

    pub(crate) fn insert(&mut self, vrp: Vrp) -> Result<(), AllocError>
        ensures ok { OnOk result (self.new ≡ set.insert self.old vrp) }
        ensures absent { OnErr result (set.has_vrp self.old vrp ≡ false) }
    {
        self.csv_length = None;
        self.vrps.insert(vrp)?;
        Ok(())
    }

    pub(crate) fn remove(&mut self, vrp: &Vrp)
        ensures rest { self.new ≡ set.remove self.old vrp.now }
    {
        self.csv_length = None;
        self.vrps.remove(vrp);
    }
}

/// The length of CSV lines, until it is over what a `u64` counts.
#[derive(Drop)]
struct Counting {
    count: u64,
    is_over: bool,
}

impl Sink for Counting {
    ghost took = { λ a vrps b. HasCounted a.is_over b.is_over a.count vrps b.count };

    ghost has_stopped = { λ c. c.is_over };

    fn take(&mut self, vrp: &Vrp) -> Result<(), Stop> {
        let length = payload_line_length(vrp) as u64;
        let Some(count) = self.count.checked_add(length) else {
            self.is_over = true;
            return Err(Stop);
        };
        self.count = count;
        self.is_over = false;
        Ok(())
    }

    ghost took_none = { λ c. counted_none c.is_over c.count };

    ghost took_then = { λ a b c. counted_then a.is_over b.is_over c.is_over
        a.count b.count c.count };
}

/// The length of the CSV that has the VRPs.
fn csv_length(vrps: &Trie) -> Option<u64>
    ensures { IsCsvLength vrps.now result }
{
    let mut counting = Counting {
        count: payload_header().len() as u64,
        is_over: false,
    };
    match vrps.visit(&mut counting) {
        Ok(()) => Some(counting.count),
        Err(Stop) => None,
    }
}
