//! Answers as bytes.
ghost use Rattle.std.specs.Prelude.{◌≡◌, ◌+◌, ◌<◌, ◌≤◌, [], ◌∷◌, ◌++◌, IfErr, IfOk, IfSome, IsSome, MatchOption, drop, length, take};
ghost use Rattle.assise_desk.specs.Pages.{IsPage, loss_bytes, losses_bytes};
ghost use Rattle.assise_desk.specs.declared.desk_fault.DeskFault.TheVariants.{NoRoom};

use crate::desk_fault::DeskFault;
use crate::desk_request::DESK_BYTES;
use assise_names::name::Name;

/// Puts bytes at the front of a desk's, and answers how many. Where there is no room for them it is [`DeskFault::NoRoom`].
pub(crate) fn place_bytes(bytes: &[u8], out: &mut [u8; DESK_BYTES]) -> Result<usize, DeskFault>
    ensures count { IfOk result (λ count. count ≡ length bytes.now) }
    ensures written { IfOk result (λ count. take count out.new ≡ bytes.now) }
    ensures few { IfOk result (λ count. count ≤ DESK_BYTES) }
    ensures no_room { IfErr result (λ fault. fault ≡ NoRoom) }
    ensures too_many { IfErr result (λ fault. DESK_BYTES < length bytes.now) }
    ensures stays { IfErr result (λ fault. out.new ≡ out.old) }
{
    place_at(bytes, out, 0).ok_or(DeskFault::NoRoom)
}

/// Puts a page of names at the front of a desk's bytes: those from number `first` on, each with a zero byte behind it, as many as
/// there is room for. It answers how many bytes they have: where a name is left there is room for one.
pub(crate) fn place_page(names: &[Name], first: u64, out: &mut [u8; DESK_BYTES]) -> usize
    ensures page { IsPage DESK_BYTES (drop first names.now) (take result out.new) }
    ensures progress { first < length names.now → 0 < result }
    ensures few { result ≤ DESK_BYTES }
{
    let Some(left) = names.get(first as usize..) else {
        return 0;
    };
    let mut end = 0;
    for name in left {
        match place_name(name, out, end) {
            Some(next) => end = next,
            None => return end,
        }
    }
    end
}

/// Puts a name with a zero byte behind it at a place of a desk's bytes, and answers the place behind it. Where there is no room
/// nothing before the place is changed.
fn place_name(name: &Name, out: &mut [u8; DESK_BYTES], at: usize) -> Option<usize>
    requires { at ≤ DESK_BYTES }
    ensures place { MatchOption result (DESK_BYTES < at + length name.now + 1)
        (λ next. next ≡ at + length name.now + 1) }
    ensures room { at + 256 ≤ DESK_BYTES → IsSome result }
    ensures few { IfSome result (λ next. next ≤ DESK_BYTES) }
    ensures written { MatchOption result (take at out.new ≡ take at out.old)
        (λ next. take next out.new ≡ take at out.old ++ (name.now ++ 0 ∷ [])) }
{
    let end = place_at(name.as_str().as_bytes(), out, at)?;
    place_at(&[0], out, end)
}

/// Puts each client that lost a call, with the number of its first lost call, at the front of a desk's bytes, and answers how many
/// bytes they have. Where there is no room for them it is [`DeskFault::NoRoom`].
pub(crate) fn place_losses(
    losses: &[(u32, u64)],
    out: &mut [u8; DESK_BYTES],
) -> Result<usize, DeskFault>
    ensures count { IfOk result (λ count. count ≡ length (losses_bytes losses.now)) }
    ensures written { IfOk result (λ count. take count out.new ≡ losses_bytes losses.now) }
    ensures few { IfOk result (λ count. count ≤ DESK_BYTES) }
    ensures no_room { IfErr result (λ fault. fault ≡ NoRoom) }
    ensures too_many { IfErr result (λ fault. DESK_BYTES < length (losses_bytes losses.now)) }
{
    let mut end = 0;
    for (client, call) in losses {
        match place_loss(*client, *call, out, end) {
            Some(next) => end = next,
            None => return Err(DeskFault::NoRoom),
        }
    }
    Ok(end)
}

/// Puts a client with the number of its first lost call at a place of a desk's bytes, and answers the place behind it, or nothing where
/// there is no room.
pub(crate) fn place_loss(
    client: u32,
    call: u64,
    out: &mut [u8; DESK_BYTES],
    at: usize,
) -> Option<usize>
    requires { at ≤ DESK_BYTES }
    ensures place { MatchOption result (DESK_BYTES < at + 12) (λ next. next ≡ at + 12) }
    ensures few { IfSome result (λ next. next ≤ DESK_BYTES) }
    ensures written { IfSome result (λ next.
        take next out.new ≡ take at out.old ++ loss_bytes (client, call)) }
{
    let end = place_at(&client.to_le_bytes(), out, at)?;
    place_at(&call.to_le_bytes(), out, end)
}

/// Puts bytes at a place of a desk's, and answers the place behind them, or nothing where there is no room.
pub(crate) fn place_at(bytes: &[u8], out: &mut [u8; DESK_BYTES], at: usize) -> Option<usize>
    requires { at ≤ DESK_BYTES }
    ensures place { MatchOption result (DESK_BYTES < at + length bytes.now)
        (λ next. next ≡ at + length bytes.now) }
    ensures few { IfSome result (λ next. next ≤ DESK_BYTES) }
    ensures written { MatchOption result (out.new ≡ out.old)
        (λ next. take next out.new ≡ take at out.old ++ bytes.now) }
{
    if bytes.len() > DESK_BYTES - at {
        return None;
    }
    let end = at + bytes.len();
    out[at..end].copy_from_slice(bytes);
    Some(end)
}
