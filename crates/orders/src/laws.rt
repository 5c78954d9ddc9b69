// Theorems about the definitions, each on the contract of a function that does nothing.
ghost use Rattle.orders.specs.Laws.{MaskHas};

// The mask of a test has exactly the elements that pass it.
pub fn mask_has()
    ensures { MaskHas }
{}
