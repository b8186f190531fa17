// Laws of lists of calls.
ghost use Rattle.surject_arena.specs.Histories.{SetsAreTheClasses, RedirectsFew};

/// States that after insertions and unions, keys are in one set exactly if the pairs united, or
/// inserted beside one another, equate them.
pub fn sets_are_the_classes<Gen, K, V>()
    ensures { SetsAreTheClasses Gen K V }
{}

/// States that from no keys, n insertions and any unions redirect at most n * log2(n) keys, with
/// log2(n) rounded up.
pub fn redirects_are_few<Gen, K, V>()
    ensures { RedirectsFew Gen K V }
{}
