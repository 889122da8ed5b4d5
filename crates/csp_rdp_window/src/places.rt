//! The places of a window: some of them are empty.

ghost use Rattle.std.specs.Prelude.{◌≡◌, Some, None};
ghost use Rattle.csp_rdp_window.specs.Places.{first_held, without_held};

/// Puts `value` into an empty place.
pub(crate) fn put<T>(place: &mut Option<T>, value: T)
    requires { place.old ≡ None }
    ensures { place.new ≡ Some value }
{
    match place.replace(value) {
        None => {}
        Some(_) => unreachable!(),
    }
}

/// Takes what the first place that is not empty has.
pub(crate) fn take_first<T>(places: &mut [Option<T>]) -> Option<T>
    ensures value { result ≡ first_held places.old }
    ensures rest { places.new ≡ without_held places.old }
{
    for place in places.iter_mut() {
        if place.is_some() {
            return place.take();
        }
    }
    None
}
