ghost use Rattle.std.specs.Prelude.{◌≡◌, drop};

/// The words of the command line after the program's name.
pub fn after_name(args: &[String]) -> &[String]
    ensures { result.now ≡ drop 1 args.now }
{
    match args.split_first() {
        Some((_program, words)) => words,
        None => args,
    }
}
