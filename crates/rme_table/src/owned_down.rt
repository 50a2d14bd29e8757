//! Downs in a place whose type names their service.

ghost use Rattle.std.specs.Prelude.{◌≡◌, ◌≤◌, [], length, vec_capacity};
ghost use Rattle.rme_service_steps.specs.Closing.{SeatsAreOfService};
ghost use Rattle.rme_service_steps.specs.SeatViews.{ServiceId};

use crate::down::Down;
use std::marker::{Brand, PhantomData};
use std::sync::Mutex;

/// A type that names one service, only for proofs.
///
/// A function that stores Downs in a lock or passes them to threads is generic over a Tag, and its callers pass
/// `Brand`.
pub trait Tag {
    // The service.
    ghost ident: { ServiceId };
}

impl Tag for Brand {
    ghost use Rattle.rme_table.specs.Tags.{no_service_id};

    ghost ident = { no_service_id };
}

/// A Down of the service that K names.
#[derive(Drop)]
pub struct OwnedDown<K: Tag> {
    pub down: Down,
    pub of: PhantomData<K>,
    pub ghost ours: { down.ident ≡ K.ident },
}

/// Puts each Down into a slot of its own, converted to the slot's value.
pub fn fill_with_downs<K: Tag, T: From<OwnedDown<K>> + Drop>(
    downs: Vec<Down>,
    mut slots: Vec<Mutex<Option<T>>>,
) -> Vec<Mutex<Option<T>>>
    requires ours { SeatsAreOfService K.ident downs.items }
    requires none { slots.items ≡ [] }
    requires room { length downs.items ≤ vec_capacity slots }
    ensures { length result.items ≡ length downs.items }
{
    for down in downs {
        let kept = OwnedDown {
            down,
            of: PhantomData,
        };
        slots.push_reserved(Mutex::new(Some(T::from(kept))));
    }
    slots
}
