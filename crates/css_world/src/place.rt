ghost use Rattle.std.specs.Prelude.{◌≡◌, ◌⊎◌, [], ◌∷◌, ◌++◌, Some, None, IfSome, IfNone, OnOk, option_to_list};
ghost use Rattle.std.specs.Option.{option_copied, option_map};
ghost use Rattle.css_meaning.specs.Numbering.{stored, place_of};

use css_num::Memory;
use css_server::Answered;

/// Where the item with this number stands in a list, if numbers are counted from 1.
pub(crate) fn place(number: u32) -> Option<usize>
    ensures { result ≡ place_of number }
{
    (number as usize).checked_sub(1)
}

/// The datagram with this number, counted from 1, and the companion that it belongs to.
pub(crate) fn item<'a>(
    items: &'a [[u8; 32]],
    owners: &[u32],
    number: u32,
) -> Option<(&'a [u8; 32], u32)>
    ensures some { IfSome result (λ item. (stored items.now number ≡ Some item.0.now)
        × (stored owners.now number ≡ Some item.1)) }
    ensures none { IfNone result ((stored items.now number ≡ None) ⊎ (stored owners.now number ≡ None)) }
{
    let place = place(number)?;
    Some((items.get(place)?, *owners.get(place)?))
}

/// The companion of the item with this number, counted from 1.
pub(crate) fn owner(owners: &[u32], number: u32) -> Option<u32>
    ensures { result ≡ stored owners.now number }
{
    owners.get(place(number)?).copied()
}

/// Stores the datagrams of an answer, and for each of them the companion that it is for.
pub(crate) fn store_answer(
    datagrams: &mut Vec<[u8; 32]>,
    owners: &mut Vec<u32>,
    answered: &Answered,
    owner: u32,
) -> Result<(), Memory>
    ensures datagrams { OnOk result (datagrams.new.items
        ≡ datagrams.old.items ++ answered.now.response ∷ option_to_list answered.now.follow_up) }
    ensures owners { OnOk result (owners.new.items
        ≡ owners.old.items ++ owner ∷ option_to_list (option_map (λ _. owner) answered.now.follow_up)) }
{
    store(datagrams, owners, answered.response, owner)?;
    match answered.follow_up {
        Some(follow_up) => store(datagrams, owners, follow_up, owner),
        None => Ok(()),
    }
}

/// Stores a datagram that the television made, and the companion that it is for.
fn store(
    datagrams: &mut Vec<[u8; 32]>,
    owners: &mut Vec<u32>,
    datagram: [u8; 32],
    owner: u32,
) -> Result<(), Memory>
    ensures datagrams { OnOk result (datagrams.new.items ≡ datagrams.old.items ++ datagram ∷ []) }
    ensures owners { OnOk result (owners.new.items ≡ owners.old.items ++ owner ∷ []) }
{
    datagrams.push(datagram)?;
    owners.push(owner)?;
    Ok(())
}
