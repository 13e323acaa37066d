//! What replies say.
ghost use Rattle.std.specs.Prelude.{◌≡◌, ◌↔◌, ◌+◌, ◌++◌, ◌∷◌, ◌<◌, ◌^◌, ℕ, Bool, List, Option, [], All, IsTrue, IfSome, IfNone, IfOk, IfErr, OnOk, length, map, vec_len, if◌then◌else◌};
ghost use Rattle.resp.specs.declared.reply.Item.TheVariants as item;
ghost use Rattle.resp.specs.declared.reply.Reply.TheVariants as replies;
ghost use Rattle.redis_store.specs.Replies.{IsOkReply, IsSetting, IsValue, IsOtherKind, GivesShare};
ghost use Rattle.redis_store.specs.Answers.{SaysWhether, SayWhich, GiveShares, numbered_share, IsFaultOf};
ghost use Rattle.share_store.specs.NumberedShares.{numbered_bytes};
ghost use Rattle.std.specs.Option.{option_map};
ghost use Rattle.std.specs.Rc.{rc_slice_items};
ghost use Rattle.redis_store.specs.AfterExchange.{IsOfReply};

use crate::ServerFault;
use octets::Bytes;
use resp::{Element, Item, Reply};
use std::alloc::{AllocError, Global};
use std::rc::RcSlice;

/// Whether it is `OK`.
pub(crate) fn is_done(reply: &Reply) -> bool
    ensures { IsTrue result ↔ IsOkReply reply.now }
{
    match reply {
        Reply::One(Item::Text(text)) => text.as_slice() == b"OK".as_slice(),
        _ => false,
    }
}

/// Whether it says one or none, of one name. Or what is wrong with a reply that says neither.
pub(crate) fn said_in(reply: &Reply) -> Result<bool, ServerFault>
    ensures said { IfOk result (λ said. SaysWhether said reply.now) }
    ensures wrong { IfErr result (λ fault. IsFaultOf fault reply.now
        × ((said : Bool) → SaysWhether said reply.now → ⊥)) }
    ensures of_reply { IfErr result (λ fault. IsOfReply fault) }
{
    if says(reply, 1) {
        return Ok(true);
    }
    if says(reply, 0) {
        return Ok(false);
    }
    Err(fault_of(reply))
}

/// Whether it is this number.
fn says(reply: &Reply, number: i64) -> bool
    ensures { IsTrue result ↔ (reply.now ≡ replies.One (item.Integer number)) }
{
    match reply {
        Reply::One(Item::Integer(count)) => *count == number,
        _ => false,
    }
}

/// The numbers, from 0 on, of those replies that say one. Or what is wrong with the first reply that says neither one
/// nor none.
pub(crate) fn numbers_in(alloc: Global, replies: &[Reply]) -> Result<Vec<u16>, ServerFault>
    requires { length replies.now < 2 ^ 16 }
    ensures said { IfOk result (λ numbers. SayWhich 0 replies.now numbers.items) }
    ensures of_reply { IfErr result (λ fault. IsOfReply fault) }
{
    let mut numbers = Vec::new(alloc);
    let mut number = 0;
    for reply in replies {
        let said = said_in(reply)?;
        push_if(&mut numbers, number, said)?;
        number += 1;
    }
    Ok(numbers)
}

/// The shares that these replies give, each with its number, from 0 on. Or what is wrong with the first reply that gives
/// neither a share nor none.
pub(crate) fn shares_in(
    alloc: Global,
    replies: Vec<Reply>,
) -> Result<Vec<(u16, RcSlice<u8>)>, ServerFault>
    requires { vec_len replies < 2 ^ 16 }
    ensures given { IfOk result (λ shares.
        GiveShares 0 replies.items (map (numbered_bytes rc_slice_items) shares.items)) }
    ensures some { IfOk result (λ shares. All (λ share. 0 < length share.1)
        (map (numbered_bytes rc_slice_items) shares.items)) }
    ensures of_reply { IfErr result (λ fault. IsOfReply fault) }
{
    let mut shares = Vec::new(alloc);
    let mut number = 0;
    for reply in replies {
        let share = share_in(reply)?;
        push_share(&mut shares, number, lent(share)?)?;
        number += 1;
    }
    Ok(shares)
}

/// Puts a share behind the others, with its number, if there is one.
fn push_share(
    shares: &mut Vec<(u16, RcSlice<u8>)>,
    number: u16,
    share: Option<RcSlice<u8>>,
) -> Result<(), AllocError>
    ensures { OnOk result (map (numbered_bytes rc_slice_items) shares.new.items
        ≡ map (numbered_bytes rc_slice_items) shares.old.items
        ++ numbered_share number (option_map rc_slice_items share)) }
{
    if let Some(bytes) = share {
        shares.push((number, bytes))?;
    }
    Ok(())
}

/// A share's bytes as they are lent out.
pub(crate) fn lent(share: Option<Bytes>) -> Result<Option<RcSlice<u8>>, ServerFault>
    ensures same { IfOk result (λ lent. option_map rc_slice_items lent ≡ share) }
    ensures fault { IfErr result (λ fault. fault ≡ ServerFault.NoMemory) }
{
    match share {
        Some(bytes) => Ok(Some(RcSlice::from_vec(bytes.into_vec())?)),
        None => Ok(None),
    }
}

/// The value of a setting of the server's own. `None` where the reply is another.
pub(crate) fn setting_in(alloc: Global, reply: &Reply) -> Result<Option<Bytes>, AllocError>
    ensures { IfOk result (λ value. IfSome value (IsSetting reply.now)) }
{
    let Reply::Several(elements) = reply else {
        return Ok(None);
    };
    match elements.as_slice() {
        [Element::One(Item::Bulk(_)), Element::One(Item::Bulk(value))] => {
            Ok(Some(Bytes::from_slice(alloc, value.as_slice())?))
        }
        _ => Ok(None),
    }
}

/// Puts a number behind the others, if that is said.
fn push_if(numbers: &mut Vec<u16>, number: u16, said: bool) -> Result<(), AllocError>
    ensures { OnOk result (numbers.new.items
        ≡ (if said then numbers.old.items ++ number ∷ [] else numbers.old.items)) }
{
    if said {
        numbers.push(number)?;
    }
    Ok(())
}

/// What is wrong with a reply that isn't the one that was wanted.
pub(crate) fn fault_of(reply: &Reply) -> ServerFault
    ensures fault { IsFaultOf result reply.now }
    ensures of_reply { IsOfReply result }
{
    match reply {
        Reply::One(Item::Error(why)) => {
            let why = why.as_slice();
            if why.starts_with(b"OOM ") {
                return ServerFault::Full;
            }
            if why.starts_with(b"READONLY ") || why.starts_with(b"MASTERDOWN ") {
                return ServerFault::Replica;
            }
            ServerFault::Refused
        }
        _ => ServerFault::OtherReply,
    }
}

/// Whether it says that what stands under a name are no bytes.
fn is_other_kind(reply: &Reply) -> bool
    ensures { IsTrue result ↔ IsOtherKind reply.now }
{
    match reply {
        Reply::One(Item::Error(why)) => why.as_slice().starts_with(b"WRONGTYPE "),
        _ => false,
    }
}

/// The bytes of a share that stand under a name, or that there are none: nothing stands there, or no bytes do. Or
/// what is wrong with a reply that says neither.
pub(crate) fn share_in(reply: Reply) -> Result<Option<Bytes>, ServerFault>
    ensures found { IfOk result (λ share. GivesShare reply share) }
    ensures some { IfOk result (λ share. IfSome share (λ bytes. 0 < length bytes)) }
    ensures of_reply { IfErr result (λ fault. IsOfReply fault) }
    ensures wrong { IfErr result (λ fault. IsFaultOf fault reply
        × ((share : Option (List ℕ)) → GivesShare reply share → ⊥)) }
{
    let fault = fault_of(&reply);
    let other_kind = is_other_kind(&reply);
    match bytes_in(reply) {
        Some(Some(bytes)) => {
            if bytes.is_empty() {
                return Ok(None);
            }
            Ok(Some(bytes))
        }
        Some(None) => Ok(None),
        None => { if other_kind { Ok(None) } else { Err(fault) } }
    }
}

/// The bytes that stand under a name, or that none do. `None` where it is no such reply.
pub(crate) fn bytes_in(reply: Reply) -> Option<Option<Bytes>>
    ensures found { IfSome result (λ value. IsValue reply value) }
    ensures none { IfNone result ((value : Option (List ℕ)) → IsValue reply value → ⊥) }
{
    match reply {
        Reply::One(Item::Bulk(bytes)) => Some(Some(bytes)),
        Reply::One(Item::Null) => Some(None),
        _ => None,
    }
}
