use gl_desk::Name;
use gl_task::Entrant;
use std::alloc::{AllocError, Global};

/// The name of a file without its ending.
fn stem_of(name: &str) -> &str {
    match name.rsplit_once(".") {
        Some((stem, _)) => stem,
        None => name,
    }
}

/// Whether two names differ by case or by their ending alone.
fn is_like(name: &str, file: &str) -> bool {
    stem_of(name).eq_ignore_ascii_case(stem_of(file))
}

/// The name in the folder that is most like that of a file: one that differs by case alone, or else
/// by its ending too.
pub fn like<'a>(names: &'a [Name], file: &str) -> Option<&'a Name> {
    let by_case = names
        .iter()
        .find(|name| name.as_str().eq_ignore_ascii_case(file));
    if by_case.is_some() {
        return by_case;
    }
    names.iter().find(|name| is_like(name.as_str(), file))
}

/// What is wrong with an entrant whose recording isn't there, and what to do.
pub fn words_of_missing(alloc: Global, names: &[Name], file: &Name) -> Result<String, AllocError> {
    let name = file.as_str();
    match like(names, name) {
        Some(other) => {
            let other = other.as_str();
            format!(in alloc;
                ": his recording {name} isn't in the folder, which has {other}. He counts as not launched; write the name as it is there, if that is his"
            )
        }
        None => {
            format!(in alloc;
                ": his recording {name} isn't in the folder. He counts as not launched; if he flew, put it there"
            )
        }
    }
}

/// What is wrong with an airspace file that isn't there, and what to do.
pub fn words_of_missing_airspace(
    alloc: Global,
    names: &[Name],
    file: &Name,
) -> Result<String, AllocError> {
    match like(names, file.as_str()) {
        Some(other) => {
            let other = other.as_str();
            format!(in alloc;
                ", the airspace file, isn't in the folder, which has {other}. Write the name as it is there, if that is it"
            )
        }
        None => String::from_str(
            alloc,
            ", the airspace file, isn't in the folder. Put it there, or take the line out",
        ),
    }
}

/// What is wrong with an entrant whose file one behind him has, and what to do.
pub fn words_of_shared(
    alloc: Global,
    entrant: &Entrant,
    others: &[Entrant],
) -> Result<String, AllocError> {
    let file = entrant.file.as_str();
    let other = others
        .iter()
        .find(|other| other.file.as_str() == entrant.file.as_str());
    match other {
        Some(other) => {
            let number = other.number.as_str();
            format!(in alloc;
                " and entrant {number} have the same recording {file}. Both are scored by it; give one of them the file of his own flight"
            )
        }
        None => format!(in alloc; " has the recording {file} of another entrant"),
    }
}

/// The one of two entrants with the smaller handicap, the first if they are the same.
fn smaller<'a>(one: &'a Entrant, other: &'a Entrant) -> &'a Entrant {
    if other.handicap < one.handicap {
        other
    } else {
        one
    }
}

/// The one of two entrants with the greater handicap, the first if they are the same.
fn greater<'a>(one: &'a Entrant, other: &'a Entrant) -> &'a Entrant {
    if one.handicap < other.handicap {
        other
    } else {
        one
    }
}

/// What is wrong with handicaps, of which one is more than one and a half times another, and what
/// to do.
pub fn words_of_handicaps(alloc: Global, entrants: &[Entrant]) -> Result<String, AllocError> {
    let Some((first, others)) = entrants.split_first() else {
        return String::from_str(alloc, "there are no handicaps");
    };
    let mut least = first;
    let mut most = first;
    for entrant in others {
        least = smaller(least, entrant);
        most = greater(most, entrant);
    }
    let low = least.handicap;
    let low_number = least.number.as_str();
    let high = most.handicap;
    let high_number = most.number.as_str();
    format!(in alloc;
        "the handicaps go from {low} (entrant {low_number}) to {high} (entrant {high_number}). They are in thousandths, such as 1020; correct the one that isn't"
    )
}
