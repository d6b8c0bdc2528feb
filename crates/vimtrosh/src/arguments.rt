// The words that the program is started with.
use std::env::Args;

#[derive(Drop)]
pub struct Arguments {
    // Whether refusals are told in words too, on standard error.
    pub says: bool,
    // The script; standard input where no file is named.
    pub path: Option<String>,
}

// The first word is the program's name. None where words are left over.
pub fn read_arguments(mut words: Args) -> Option<Arguments> {
    let _ = words.next();
    let mut path = words.next();
    let says = path.as_ref().is_some_and(|word| word.as_str() == "--say");
    if says {
        path = words.next();
    }
    if words.next().is_some() {
        return None;
    }
    Some(Arguments { says, path })
}
