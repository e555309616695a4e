// A reader of arriving files is what a fetcher pours into.
use crate::arriving::BundleReader;
use addr_base::NoMemory;
use addr_fetch::Pour;

impl Pour for BundleReader {
    ghost use Rattle.addr_unityfs.specs.Arriving.{Took, total_of};

    type Fixed = u64;

    ghost took = { Took };

    ghost fixed = { total_of };

    fn pour(&mut self, piece: &[u8]) -> Result<(), NoMemory> {
        self.feed(piece)
    }
}
