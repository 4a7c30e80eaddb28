// The declared variables by their numbers.
ghost use Rattle.std.specs.Prelude.{◌≡◌, ◌≤◌, length, take};
ghost use Rattle.meaning.specs.Rules.Assignments.{upto};

// 0 to n - 1, at the start of what is lent.
pub(crate) fn name_variables(n: usize, variables: &mut [usize])
    requires { n ≤ length variables.old }
    ensures { take n variables.new ≡ upto n }
{
    let named = &mut variables[..n];
    for (v, variable) in named.iter_mut().enumerate() {
        *variable = v;
    }
}
