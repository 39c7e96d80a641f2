// The beginning of an input.
ghost use Rattle.std.specs.Prelude.{◌≡◌, ◌++◌};
ghost use Rattle.jo_lex.specs.Characters.{EndsWith};

/// What stands before the end of an input.
pub fn front<'a>(input: &'a str, end: &str) -> &'a str
    requires { EndsWith input.now end.now }
    ensures { input.now ≡ result.now ++ end.now }
{
    let (front, _) = input.split_at(input.len() - end.len());
    front
}
