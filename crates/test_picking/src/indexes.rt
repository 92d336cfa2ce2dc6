//! Indexes that are written by a rule.
use resolvo_ids::StoreError;
use std::alloc::Global;

/// A text with the versions of a package from 1 to a last one behind it, which need nothing.
pub(crate) fn with_versions(
    alloc: Global,
    text: &str,
    name: &str,
    last: u32,
) -> Result<String, StoreError> {
    let mut index = String::from_str(alloc, text)?;
    for version in 1..=last {
        index.push_str(&format!(in alloc; "{name} {version}\n")?)?;
    }
    Ok(index)
}

/// One guest more than places, which this line needs. A version of a guest is a place, and needs its own version of
/// that place: so there is no solution.
pub(crate) fn holes(alloc: Global, line: &str, places: u32) -> Result<String, StoreError> {
    let mut index = String::from_str(alloc, line)?;
    let guests = places.saturating_add(1);
    for guest in 1..=guests {
        index.push_str(&format!(in alloc; " needs guest{guest} 1..{guests}")?)?;
    }
    index.push_str("\n")?;
    for guest in 1..=guests {
        add_guest(alloc, &mut index, guest, places)?;
    }
    Ok(index)
}

/// Adds a guest, and its version of each place.
fn add_guest(alloc: Global, index: &mut String, guest: u32, places: u32) -> Result<(), StoreError> {
    let end = guest.saturating_add(1);
    for place in 1..=places {
        index.push_str(&format!(in alloc;
            "guest{guest} {place} needs place{place} {guest}..{end}\n"
        )?)?;
        index.push_str(&format!(in alloc; "place{place} {guest}\n")?)?;
    }
    Ok(())
}
