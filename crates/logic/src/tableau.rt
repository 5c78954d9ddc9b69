// The records of a tableau: the constraints and edges of a branch, and the steps that write a tableau.
ghost use Rattle.std.specs.Prelude.{◌≡◌};
ghost use Rattle.logic.specs.Branches.{form_number};

// The form of a constraint: what it says of the element of its label and the concept of its node.
#[derive(Clone, Copy, PartialEq, Eq)]
pub enum Form {
    // the element is in the concept
    Holds,
    // the element is not in the concept
    Fails,
    // no better element is in the concept
    Bars,
    // some better element is in the concept
    Admits,
}

// The number of a form.
impl From<Form> for u8 {
    ghost from_gives = { λ form n. n ≡ form_number form };

    fn from(form: Form) -> u8 {
        match form {
            Form::Holds => 0,
            Form::Fails => 1,
            Form::Bars => 2,
            Form::Admits => 3,
        }
    }
}

// A label stands for an element. Labels 0 to 31 are the individuals; new ones are numbered from 32.
#[derive(Clone, Copy, PartialEq, Eq)]
pub struct Constraint {
    pub label: u8,
    pub form: Form,
    pub node: u16,
}

// A role leads from one label to another; at role 16, the second is better than the first.
#[derive(Clone, Copy, PartialEq, Eq)]
pub struct Edge {
    pub from: u8,
    pub role: u8,
    pub to: u8,
}

// A step names a rule by its op, and entries, labels, constraints and edges by their numbers. The op is a number,
// since an unknown op can be handed in too, and is then refused.
#[derive(Clone, Copy)]
pub struct Step {
    pub op: u8,
    pub a: u16,
    pub b: u16,
}
