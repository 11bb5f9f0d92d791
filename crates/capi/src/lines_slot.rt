//! The lines that C lists.
ghost use Rattle.std.specs.Prelude.{◌≡◌, is_some, None, Some, true};

use crate::listing::Listing;
use crate::listing_box::ListingBox;
use crate::loose::Loose;
use std::alloc::Global;
use std::mem::replace;

/// Lines that C lists, or none. C gives them back as they were given.
#[repr(C)]
#[derive(Drop)]
pub struct CLines {
    /// The lines.
    pub listing: ListingBox,
    /// Whether there are some.
    pub is_open: bool,
    ghost right: { is_open ≡ is_some listing.held },
}

/// Puts lines into C's handle.
pub(crate) fn put_lines(listing: Box<Listing>, slot: &mut CLines)
    ensures { slot.new.listing.held ≡ Some listing.value }
{
    *slot = CLines {
        listing: ListingBox::seal(Loose::of(listing)),
        is_open: true,
    };
}

/// Takes the lines out of C's handle, where there are some.
pub(crate) fn take_lines(alloc: Global, slot: &mut CLines) -> Box<Listing>
    requires { slot.old.is_open ≡ true }
    ensures listing { slot.old.listing.held ≡ Some result.value }
    ensures none { slot.new.listing.held ≡ None }
{
    let none = CLines {
        listing: ListingBox::empty(alloc),
        is_open: false,
    };
    let CLines {
        listing,
        is_open: _,
    } = replace(slot, none);
    listing.unseal().into_box()
}
