//! What a place holds from now on.

/// Has a place hold a value. The one that it held is dropped here, so no caller's proof goes through its parts.
pub fn set<T: Drop>(place: &mut T, value: T) {
    *place = value;
}
