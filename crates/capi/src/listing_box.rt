//! Lines that are listed, as a pointer that C may hold.
ghost use Rattle.std.specs.Prelude.{◌≡◌, IsSome, None, Option, Some};
ghost use Rattle.capi.specs.PointerOwns.{pointer_owns};
ghost use Rattle.capi.specs.contracts.listing.Listing.{the_row};
ghost use Rattle.capi.specs.declared.listing.Listing.{Listing as Held};
ghost use Rattle.std.specs.Coded.{coded_option};

use crate::listing::Listing;
use crate::loose::Loose;
use std::alloc::Global;
use std::marker::Model;
use std::ptr::null_mut;

/// The pointer of the box of lines, or none. C sees a pointer alone. Dropping it frees nothing: C frees them by a call.
#[repr(C)]
#[derive(Drop)]
pub struct ListingBox {
    /// The address of the box, or null.
    at: *mut u8,
    /// The allocator of the box.
    alloc: Global,
    /// The lines, if there are some.
    pub ghost held: { Option Held } by { coded_option the_row.coded },
}

impl Model for ListingBox {
    ghost use Rattle.capi.specs.PointerOwns.{pointer_owns};
    ghost use Rattle.capi.specs.contracts.listing.Listing.{the_row};

    ghost also_owns = { λ b. pointer_owns (⟦<Global as std::alloc::Allocator>⟧.dealloc_token b.alloc) the_row b.at
        b.held };
}

impl ListingBox {
    /// Returns the pointer of a box, for C.
    pub(crate) fn seal(loose: Loose<Listing, Global>) -> ListingBox
        ensures { result.held ≡ Some loose.value }
    {
        let Loose { at, alloc } = loose;
        ListingBox {
            at: at as *mut u8,
            alloc,
        }
    }

    /// Returns none.
    pub(crate) fn empty(alloc: Global) -> ListingBox
        ensures { result.held ≡ None }
    {
        ListingBox {
            at: null_mut(),
            alloc,
        }
    }

    /// Returns the pointer of the box. There must be one.
    pub(crate) fn unseal(self) -> Loose<Listing, Global>
        requires { IsSome self.held }
        ensures { self.held ≡ Some result.value }
    {
        let ListingBox { at, alloc } = self;
        Loose {
            at: at as *mut Listing,
            alloc,
        }
    }
}
