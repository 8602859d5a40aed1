ghost use Rattle.std.specs.Prelude.{◌≡◌, ◌<◌, drop, length};

// What stands after the first element.
pub fn behind<T>(list: &[T]) -> &[T]
    requires { 0 < length list.now }
    ensures { result.now ≡ drop 1 list.now }
{
    &list[1..]
}
