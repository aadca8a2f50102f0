// The tables of specs/Cases and specs/Edges: they are proved, and the check fails where their proof goes.
ghost use Rattle.std.specs.Prelude.{◌≡◌, true};
ghost use Rattle.cases.specs.Cases.{Cases};
ghost use Rattle.cases.specs.Edges.{Edges};

pub fn is_proved() -> bool
    ensures { (result ≡ true) × Cases × Edges }
{
    true
}
