// Lists of receipts.
ghost use Rattle.std.specs.Prelude.{◌≡◌, ◌<◌, ◌++◌, ◌∷◌, [], IfErr, OnOk, length, vec_capacity};
ghost use Rattle.state_facts.specs.declared.refusal.Refusal.TheVariants.{NoMemory};
ghost use Rattle.state_book.specs.Clerks.{last_reply};

use crate::{Receipt, Reply};
use state_facts::Refusal;

/// Makes room for one more receipt.
pub fn make_room(receipts: &mut Vec<Receipt>) -> Result<(), Refusal>
    ensures items { receipts.new.items ≡ receipts.old.items }
    ensures room { OnOk result (length receipts.new.items < vec_capacity receipts.new) }
    ensures cause { IfErr result (λ refusal. refusal ≡ NoMemory) }
{
    receipts.reserve(1)?;
    Ok(())
}

/// Returns the reply of the last receipt.
pub fn reply_of_last(receipts: &[Receipt]) -> &Reply
    requires { 0 < length receipts.now }
    ensures { result.now ≡ last_reply receipts.now }
{
    &receipts[receipts.len() - 1].reply
}
