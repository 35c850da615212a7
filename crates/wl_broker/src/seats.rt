//! TabSeats of the tabs that have joined or died.

ghost use Rattle.std.specs.Prelude.{◌≡◌, IsSome, MatchOption};
ghost use Rattle.std.specs.Map.{remove_entry};
ghost use Rattle.std.specs.BTreeMap.{is_at};
ghost use Rattle.std.specs.Ordering.{nat_cmp};
ghost use Rattle.wl_draft.specs.Tables.{find, put};
ghost use Rattle.wl_broker.specs.Broker.{is_joined, is_dead, next_in, limit_in, seated_at};

use crate::seat::TabSeat;
use std::collections::BTreeMap;

/// Returns the seat of a tab, if it has one.
pub fn seat_of(seats: &BTreeMap<u16, TabSeat>, tab: u16) -> Option<TabSeat>
    ensures { result ≡ find seats.now.entries tab }
{
    seats.get(&tab).copied()
}

/// Returns the number of a tab's next command, or 0 if it has not joined.
pub fn next_in(seat: Option<TabSeat>) -> u32
    ensures { result ≡ next_in seat }
{
    match seat {
        Some(TabSeat::Joined { next, .. }) => next,
        Some(TabSeat::Dead) | None => 0,
    }
}

/// Returns the maximum number of locks of a tab, or 0 if it has not joined.
pub fn limit_in(seat: Option<TabSeat>) -> u16
    ensures { result ≡ limit_in seat }
{
    match seat {
        Some(TabSeat::Joined { limit, .. }) => limit,
        Some(TabSeat::Dead) | None => 0,
    }
}

/// Returns the partition in which a tab has joined.
pub fn seated_at(seat: Option<TabSeat>) -> Option<u16>
    ensures { result ≡ seated_at seat }
{
    match seat {
        Some(TabSeat::Joined { partition, .. }) => Some(partition),
        Some(TabSeat::Dead) | None => None,
    }
}

/// Returns whether the tab has joined.
pub fn is_joined(seat: Option<TabSeat>) -> bool
    ensures { result ≡ is_joined seat }
{
    match seat {
        Some(TabSeat::Joined { .. }) => true,
        Some(TabSeat::Dead) | None => false,
    }
}

/// Returns whether the tab is dead.
pub fn is_dead(seat: Option<TabSeat>) -> bool
    ensures { result ≡ is_dead seat }
{
    match seat {
        Some(TabSeat::Dead) => true,
        Some(TabSeat::Joined { .. }) | None => false,
    }
}

/// Replaces the seat of a tab that has one. Does not allocate.
pub fn set_seat(seats: &mut BTreeMap<u16, TabSeat>, tab: u16, seat: TabSeat)
    requires { IsSome (find seats.old.entries tab) }
    ensures { seats.new.entries ≡ put tab seat seats.old.entries }
{
    let _ = seats.insert(tab, seat);
}

/// Restores the earlier seat of a tab, or removes its seat if it had none. Does not allocate.
pub fn put_back(seats: &mut BTreeMap<u16, TabSeat>, tab: u16, before: Option<TabSeat>)
    requires { IsSome (find seats.old.entries tab) }
    ensures { MatchOption before
        (seats.new.entries ≡ remove_entry (is_at (nat_cmp tab)) seats.old.entries)
        (λ seat. seats.new.entries ≡ put tab seat seats.old.entries) }
{
    match before {
        Some(seat) => set_seat(seats, tab, seat),
        None => {
            seats.remove(&tab);
        }
    }
}
