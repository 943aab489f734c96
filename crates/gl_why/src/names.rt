use gl_desk::Name;

/// The name of a file without its ending.
fn stem_of(name: &str) -> &str {
    match name.rsplit_once(".") {
        Some((stem, _)) => stem,
        None => name,
    }
}

/// Whether two names differ by case or by their ending alone.
fn is_like(name: &str, file: &str) -> bool {
    stem_of(name).eq_ignore_ascii_case(stem_of(file))
}

/// The name in the folder that is most like that of a file: one that differs by case alone, or else
/// by its ending too.
pub fn like<'a>(names: &'a [Name], file: &str) -> Option<&'a Name> {
    let by_case = names
        .iter()
        .find(|name| name.as_str().eq_ignore_ascii_case(file));
    if by_case.is_some() {
        return by_case;
    }
    names.iter().find(|name| is_like(name.as_str(), file))
}
