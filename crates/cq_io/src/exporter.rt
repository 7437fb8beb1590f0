//! Where finished files go.

ghost use Rattle.std.specs.Prelude.{◌≡◌, ◌++◌, ◌∷◌, [], ◌≤◌, map, OnOk, OnErr, IsErrOf, true, false};
ghost use Rattle.cq_io.specs.Account.{Account};
ghost use Rattle.cq_io.specs.Content.{file_of};
ghost use Rattle.cq_io.specs.Counts.{Rose};

use crate::format::Format;
use crate::refusal::PutRefusal;

/// A place that takes files of one format, one by one. Its account tells the format, the files that it took, in
/// order, and how many calls failed. A steady exporter never fails.
pub trait Exporter: Drop {
    ghost account: { Self → Account };

    /// The format of its files; the same at every call.
    fn format(&self) -> Format
        ensures { result ≡ (account self.now).format };

    /// The files that it took, with their names, in order.
    fn kept(&self) -> &[(String, Vec<u8>)]
        ensures { map file_of result.now ≡ (account self.now).held };

    /// Takes a file. After a refusal it has the files that it had before.
    fn put(&mut self, name: &str, bytes: &[u8]) -> Result<(), PutRefusal>
        ensures format { (account self.new).format ≡ (account self.old).format }
        ensures ok { OnOk result ((account self.new).held ≡ (account self.old).held ++ (name.now, bytes.now) ∷ []) }
        ensures err { OnErr result ((account self.new).held ≡ (account self.old).held) }

        // The count doesn't fall, and no refusal but want of memory comes without it.
        ensures later { (account self.old).faults ≤ (account self.new).faults }
        ensures failed { IsErrOf result PutRefusal.Failed → Rose (account self.old).faults (account self.new).faults }
        ensures memory { IsErrOf result PutRefusal.Memory → (account self.new).faults ≡ (account self.old).faults }
        ensures steady { (account self.new).steady ≡ (account self.old).steady }
        ensures fails { IsErrOf result PutRefusal.Failed → (account self.old).steady ≡ false }
        ensures calm { (account self.old).steady ≡ true → (account self.new).faults ≡ (account self.old).faults };
}
