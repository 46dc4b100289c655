// One walk that changes every item of a slice, for rows and counters alike.
ghost use Rattle.std.specs.List.{AllZip};

pub fn change_all<T: Copy, F: Fn(T) -> T>(items: &mut [T], change: F)
    requires { F.IsAlwaysCallable change }
    ensures { AllZip (F.post change) items.old items.new }
{
    for item in items.iter_mut() {
        *item = change(*item);
    }
}
