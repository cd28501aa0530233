//! Fields that stand one after another: how they are read, and how their bytes are taken.

ghost use Rattle.std.specs.Prelude.{◌≡◌, ◌==◌, ◌+◌, ◌≤◌, ◌<◌, ◌^◌, Bool, true, max, Some, None, IfOk};
ghost use Rattle.krb_file.specs.File.{file_limit};
ghost use Rattle.krb_file.specs.Flow.{counted};
ghost use Rattle.krb_ccache.specs.Inner.Reading.{made_at, allowed};
ghost use Rattle.krb_ccache.specs.Inner.Row.{Row, name_field, data_field, list_field, flag_field, number_field, both_fields, Raw, row_at, most_left};
ghost use Rattle.krb_ccache.specs.Inner.Walking.{IsWalk, passed_at, and_then, pass_if, left_at, stopped_reads};

use crate::item_fault::ItemFault;
use crate::items::{read_data, read_list};
use crate::layout::Layout;
use crate::typed::TypedList;
use crate::walking::{Left, TakeFault, leave, take, take_last, take_many};
use krb_file::{Feed, FileCursor};
use krb_name::{Bytes, Principal};
use std::alloc::Global;

// How many bytes the type of a principal has.
const NAME_TYPE: usize = 4;

// How many bytes the type of an address or of authorization data has.
const KIND: usize = 2;

/// A field, or a row of fields in nested pairs.
pub(crate) trait Field: Sized {
    /// Which field it is, or which fields.
    ghost fields: { Row };

    /// The value that its bytes mean.
    ghost value: { Raw fields → Self };

    /// Reads the field that begins here, copies it and moves past it. On an error the position is
    /// unspecified.
    fn read(alloc: Global, layout: Layout, cursor: &mut FileCursor<'_>) -> Result<Self, ItemFault>
        ensures read { IfOk result (λ field.
            made_at value (row_at fields true layout) cursor.old ≡ Some (field, cursor.new)) }
        ensures missing { result ≡ Err ItemFault.Missing
            → made_at value (row_at fields true layout) cursor.old ≡ None };

    /// Takes what is left of the fields before it, and then this field except for its last bytes.
    fn take<T: Feed>(layout: Layout, feed: &mut T, left: Left) -> Result<Left, TakeFault>
        requires few { max left.skip (2 ^ 32) + most_left fields < 2 ^ 64 }
        requires within { (T.hand feed.old).given ≤ file_limit }
        ensures few { IfOk result (λ next. next.skip ≤ max left.skip (2 ^ 32) + most_left fields) }
        ensures walk { (strict : Bool) → IsWalk (and_then (left_at strict left) (passed_at (row_at fields strict layout))) (left_at strict)
            T.allocates (T.hand feed.old) (T.hand feed.new) result }
        ensures failed { T.failure_count feed.new ≡ counted (T.failure_count feed.old) (stopped_reads result) }
        ensures lent { T.lender feed.new ≡ T.lender feed.old };
}

/// Takes all bytes of a field, and returns whether its flags are flags.
pub(crate) fn take_all<F: Field, T: Feed>(layout: Layout, feed: &mut T) -> Result<bool, TakeFault>
    requires few { 2 ^ 32 + most_left F.fields < 2 ^ 64 }
    requires within { (T.hand feed.old).given ≤ file_limit }
    ensures walk { (strict : Bool) → IsWalk (passed_at (row_at F.fields strict layout)) (λ good. pass_if (allowed strict good))
        T.allocates (T.hand feed.old) (T.hand feed.new) result }
    ensures failed { T.failure_count feed.new ≡ counted (T.failure_count feed.old) (stopped_reads result) }
    ensures lent { T.lender feed.new ≡ T.lender feed.old }
{
    let left = F::take(layout, feed, Left::none())?;
    take(feed, left.skip)?;
    Ok(left.good)
}

impl<A: Field + Drop, B: Field + Drop> Field for (A, B) {
    ghost fields = { both_fields A.fields B.fields };

    ghost value = { λ raw. (A.value raw.0, B.value raw.1) };

    fn read(
        alloc: Global,
        layout: Layout,
        cursor: &mut FileCursor<'_>,
    ) -> Result<(A, B), ItemFault> {
        let first = A::read(alloc, layout, cursor)?;
        let others = B::read(alloc, layout, cursor)?;
        Ok((first, others))
    }

    fn take<T: Feed>(layout: Layout, feed: &mut T, left: Left) -> Result<Left, TakeFault> {
        let next = A::take(layout, feed, left)?;
        B::take(layout, feed, next)
    }
}

impl Field for Principal {
    ghost fields = { name_field };

    ghost value = { λ name. name };

    #[tactic(auto, unfolding(crate::specs::Inner::Reading::name_at))]
    fn read(alloc: Global, _: Layout, cursor: &mut FileCursor<'_>) -> Result<Principal, ItemFault> {
        let name_type = cursor.read_i32()?;
        let count = cursor.read_u32()?;
        let realm = read_data(alloc, cursor)?;
        let components = read_list(alloc, cursor, count)?;
        Ok(Principal {
            realm,
            name_type,
            components,
        })
    }

    fn take<T: Feed>(_: Layout, feed: &mut T, left: Left) -> Result<Left, TakeFault> {
        let count = u32::from_be_bytes(take_last(feed, left.skip + NAME_TYPE)?);
        let realm = u32::from_be_bytes(take_last(feed, 0)?);
        take_many(feed, realm, 0, count, left.good)
    }
}

impl Field for Bytes {
    ghost fields = { data_field };

    ghost value = { λ bytes. bytes };

    fn read(alloc: Global, _: Layout, cursor: &mut FileCursor<'_>) -> Result<Bytes, ItemFault> {
        read_data(alloc, cursor)
    }

    fn take<T: Feed>(_: Layout, feed: &mut T, left: Left) -> Result<Left, TakeFault> {
        let last = u32::from_be_bytes(take_last(feed, left.skip)?);
        Ok(Left {
            skip: last as usize,
            ..left
        })
    }
}

impl Field for TypedList {
    ghost fields = { list_field };

    ghost value = { λ list. list };

    #[tactic(auto, unfolding(crate::specs::Inner::Reading::list_at))]
    fn read(alloc: Global, _: Layout, cursor: &mut FileCursor<'_>) -> Result<TypedList, ItemFault> {
        let count = cursor.read_u32()?;
        read_list(alloc, cursor, count)
    }

    fn take<T: Feed>(_: Layout, feed: &mut T, left: Left) -> Result<Left, TakeFault> {
        let count = u32::from_be_bytes(take_last(feed, left.skip)?);
        take_many(feed, 0, KIND, count, left.good)
    }
}

impl Field for bool {
    ghost fields = { flag_field };

    ghost value = { λ byte. byte == 1 };

    fn read(_: Global, _: Layout, cursor: &mut FileCursor<'_>) -> Result<bool, ItemFault> {
        let byte = cursor.read_u8()?;
        if byte > 1 {
            return Err(ItemFault::Missing);
        }
        Ok(byte == 1)
    }

    fn take<T: Feed>(_: Layout, feed: &mut T, left: Left) -> Result<Left, TakeFault> {
        let [byte]: [u8; 1] = take_last(feed, left.skip)?;
        Ok(Left {
            skip: 0,
            good: left.good & (byte <= 1),
        })
    }
}

impl Field for u32 {
    ghost fields = { number_field };

    ghost value = { λ number. number };

    fn read(_: Global, _: Layout, cursor: &mut FileCursor<'_>) -> Result<u32, ItemFault> {
        Ok(cursor.read_u32()?)
    }

    #[tactic(auto, using(crate::proofs::WalkParts::number_passed))]
    fn take<T: Feed>(_: Layout, feed: &mut T, left: Left) -> Result<Left, TakeFault> {
        Ok(leave(feed, left, 4))
    }
}
