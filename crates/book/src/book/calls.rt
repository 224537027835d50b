ghost use Rattle.std.specs.Prelude.{◌≡◌, []};

use crate::Book;
use arrayvec::ArrayVec;
use roads::Network;

impl<A, B> Book<A, B> {
    // A book on the network by two criteria, without a sheet. They stay two parameters: a struct of both would ask more of callers.
    pub fn open(network: &Network, first: A, second: B) -> Book<A, B>
        ensures network { result.network ≡ network.now }
        ensures first { result.first ≡ first }
        ensures second { result.second ≡ second }
        ensures sheets { result.sheets.items ≡ [] }
        ensures used { result.used ≡ 0 }
    {
        Book {
            network: *network,
            first,
            second,
            sheets: ArrayVec::new(),
            used: 0,
        }
    }
}
