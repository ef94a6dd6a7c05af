//! Links to servers.

ghost use Rattle.std.specs.Prelude.{◌≡◌, ℕ, ◌<◌, ◌≤◌, length, take, true, false, Some, None, [], ◌∷◌, List, Option, IfOk, OnOk, OnErr};
ghost use Rattle.ncc_base.specs.Faults.{Rose};
ghost use Rattle.ncc_client.specs.Calls.{Call, connects, sends, receives, closes, pauses, MakesMore};

use ncc_base::Failed;

/// What a client reaches servers by: one link at a time, which it opens, sends on, receives from and closes.
pub trait Links {
    /// The calls that were made, in order, each with what it gave, where the object tells them.
    ghost calls: { Self → Option (List Call) };

    /// How often a link was lost: a call failed, or no byte came where there was room for some.
    ghost losses: { Self → ℕ };

    /// Opens a link to this address, in place of any other.
    fn connect(&mut self, address: &str) -> Result<(), Failed>
        ensures ok { OnOk result (MakesMore (calls self.old) (calls self.new) (connects address.now true ∷ [])) }
        ensures err { OnErr result (MakesMore (calls self.old) (calls self.new) (connects address.now false ∷ [])) }
        ensures never_falls { losses self.old ≤ losses self.new }
        ensures lost { OnErr result (Rose (losses self.old) (losses self.new)) }
        ensures kept { OnOk result (losses self.new ≡ losses self.old) };

    /// Sends all the bytes.
    fn send(&mut self, bytes: &[u8]) -> Result<(), Failed>
        ensures ok { OnOk result (MakesMore (calls self.old) (calls self.new) (sends bytes.now true ∷ [])) }
        ensures err { OnErr result (MakesMore (calls self.old) (calls self.new) (sends bytes.now false ∷ [])) }
        ensures never_falls { losses self.old ≤ losses self.new }
        ensures lost { OnErr result (Rose (losses self.old) (losses self.new)) }
        ensures kept { OnOk result (losses self.new ≡ losses self.old) };

    /// Waits for bytes, puts them in front of the slice, and answers how many. None for a slice that is not empty is the end of the
    /// link.
    fn receive(&mut self, into: &mut [u8]) -> Result<usize, Failed>
        ensures count { IfOk result (λ n. n ≤ length into.new) }
        ensures ok { IfOk result (λ n. MakesMore (calls self.old) (calls self.new) (receives (Some (take n into.new)) ∷ [])) }
        ensures err { OnErr result (MakesMore (calls self.old) (calls self.new) (receives None ∷ [])) }
        ensures never_falls { losses self.old ≤ losses self.new }
        ensures lost { OnErr result (Rose (losses self.old) (losses self.new)) }
        ensures end { IfOk result (λ n. n ≡ 0 → 0 < length into.new → Rose (losses self.old) (losses self.new)) }
        ensures kept { IfOk result (λ n. 0 < n → losses self.new ≡ losses self.old) }
        ensures no_room { IfOk result (λ n. length into.new ≡ 0 → losses self.new ≡ losses self.old) };

    /// Closes the link, if one is open.
    fn close(&mut self)
        ensures made { MakesMore (calls self.old) (calls self.new) (closes ∷ []) }
        ensures kept { losses self.new ≡ losses self.old };

    /// Returns when the moment has come, in milliseconds of the client's clock.
    fn pause(&mut self, until: u64)
        ensures made { MakesMore (calls self.old) (calls self.new) (pauses until ∷ []) }
        ensures kept { losses self.new ≡ losses self.old };
}
