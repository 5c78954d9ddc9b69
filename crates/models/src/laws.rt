// Theorems about the definitions, each on the contract of a function that does nothing.
ghost use Rattle.models.specs.Encodings.{ModelsEncoded};

// Every model of at most 32 elements has bytes and pairs that mean it.
pub fn models_encoded()
    ensures { ModelsEncoded }
{}
