// The trucks of a record, wherever they stand: a step reads them alike from a fleet record and from one as bytes.
ghost use Rattle.std.specs.Prelude.{◌≡◌, false, ◌<◌, min};
ghost use Rattle.protocol.specs.declared.Fleet.{Fleet};
ghost use Rattle.protocol.specs.Rules.{truck};
ghost use Rattle.recordbytes.specs.Layout.{damaged, record_of};

use protocol::{Fleet, Truck};

// A trait of this crate and not a public one: its `truck` asks that the place is there, and no public function asks anything of its callers.
pub(crate) trait Trucks {
    // The record that they are of.
    ghost fleet: { Self → Fleet };

    // The places that hold a truck.
    fn count(&self) -> usize
        ensures { result ≡ min (fleet self.now).n 32 };

    fn truck(&self, i: usize) -> Truck
        requires { (i < (fleet self.now).n) × (i < 32) }
        ensures { result ≡ truck (fleet self.now).trucks i };
}

impl Trucks for Fleet {
    ghost fleet = { λ f. f };

    fn count(&self) -> usize {
        fleetrecord::places(self.n)
    }

    fn truck(&self, i: usize) -> Truck {
        self.trucks[i]
    }
}

// Bytes that are a record.
#[derive(Clone, Copy)]
pub(crate) struct SoundBytes<'a> {
    pub(crate) bytes: &'a [u8],
    ghost sound: { damaged bytes.now ≡ false },
}

impl<'a> SoundBytes<'a> {
    // The rounds done.
    #[tactic(auto, using(recordbytes::proofs::Places::bytes_whole))]
    pub(crate) fn done(&self) -> u16
        ensures { result ≡ (record_of self.now.bytes.now).done }
    {
        recordbytes::pair(self.bytes[1], self.bytes[2])
    }
}

impl<'a> Trucks for SoundBytes<'a> {
    ghost fleet = { λ r. record_of r.bytes.now };

    #[tactic(auto, using(recordbytes::proofs::Places::bytes_whole))]
    fn count(&self) -> usize {
        fleetrecord::places(self.bytes[0])
    }

    fn truck(&self, i: usize) -> Truck {
        recordbytes::truck_in(self.bytes, i)
    }
}
