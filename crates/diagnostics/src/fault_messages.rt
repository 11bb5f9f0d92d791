//! Messages of faults as texts.
ghost use Rattle.std.specs.Prelude.{◌≡◌, IfOk};
ghost use Rattle.ruletable.specs.Faults.{fault_text};

use ruletable::{Memory, ReadFault, SinkOf, write_fault};
use std::alloc::Global;

/// Returns the message of a fault, with its line feed. `Memory` if an allocation fails.
pub fn fault_message(alloc: Global, fault: &ReadFault) -> Result<Vec<u8>, Memory>
    ensures { IfOk result (λ text. text.items ≡ fault_text fault.now) }
{
    let mut text = SinkOf::new(Vec::new(alloc));
    match write_fault(fault, &mut text) {
        Ok(()) => Ok(text.into_inner()),
        Err(_) => Err(Memory),
    }
}
