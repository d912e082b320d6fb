//! Options as users write them.
ghost use Rattle.std.specs.Prelude.{◌≡◌, [], MatchOption, bytes_eq, option_copied};
ghost use Rattle.std.specs.List.{list_all, list_any};
ghost use Rattle.load_options.specs.Command.{is_option_name};
ghost use Rattle.load_options.specs.Options.{BeginsWith, numbers_after, options_of, the_one};

/// The name and the number of the first option, and the words after it.
pub(crate) fn first_option(words: &[String]) -> Option<(&str, &str, &[String])>
    ensures { MatchOption result (words.now ≡ []) (λ o. BeginsWith words.now o.0.now o.1.now o.2.now) }
{
    let (first, others) = words.split_first()?;
    let word = first.as_str();
    if let Some((name, number)) = word.split_once('=') {
        return Some((name, number, others));
    }
    match others.split_first() {
        Some((number, after)) => Some((word, number.as_str(), after)),
        None => Some((word, "", others)),
    }
}

/// Whether a name is an option of `load`.
fn is_known(name: &str) -> bool
    ensures { result ≡ is_option_name name.now }
{
    name == "--seed" || name == "--accounts" || name == "--epochs" || name == "--workers"
}

/// Whether all options have such names.
pub(crate) fn are_known(words: &[String]) -> bool
    ensures { result ≡ list_all (λ option. is_option_name option.0) (options_of words.now) }
{
    let mut left = words;
    while let Some((name, _number, after)) = first_option(left) {
        if !is_known(name) {
            return false;
        }
        left = after;
    }
    true
}

/// Whether an option has the name.
pub(crate) fn has_option(words: &[String], name: &str) -> bool
    ensures { result ≡ list_any (λ option. bytes_eq option.0 name.now) (options_of words.now) }
{
    let mut left = words;
    while let Some((other, _number, after)) = first_option(left) {
        if other == name {
            return true;
        }
        left = after;
    }
    false
}

/// The number after a name that occurs once among the options.
pub(crate) fn number_after<'a>(words: &'a [String], name: &str) -> Option<&'a str>
    ensures { option_copied result ≡ the_one (numbers_after name.now (options_of words.now)) }
{
    let mut found = None;
    let mut left = words;
    while let Some((other, number, after)) = first_option(left) {
        if other == name {
            if found.is_some() {
                return None;
            }
            found = Some(number);
        }
        left = after;
    }
    found
}
