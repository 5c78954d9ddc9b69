// Theorems about the promises, each on the contract of a function that does nothing.
ghost use Rattle.judge.specs.Laws.{ModelsShown, TableauxHaveBytes};

// For every model of at most 32 elements, as its bytes with any order that is its "better", `show` accepts
// exactly when it satisfies the live entries.
pub fn models_shown()
    ensures { ModelsShown }
{}

// Every closed tableau that is within the limits and fits the lists has bytes that refute its book.
pub fn tableaux_have_bytes()
    ensures { TableauxHaveBytes }
{}
