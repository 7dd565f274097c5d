// The words of the command line.
use suggestion::Effort;

/// The names of three files, how much is tried, within how many seconds, where that is limited, and whether lines that verify drops are put
/// into comments.
#[derive(Clone, Copy)]
pub struct Asked<'a> {
    pub old: &'a str,
    pub new: &'a str,
    pub relation: &'a str,
    pub effort: Effort,
    pub seconds: Option<u64>,
    pub keeps: bool,
}

// How many options there are.
const OPTIONS: usize = 4;

// What is asked for where there is no option.
fn asked_of(words: &[String]) -> Option<Asked<'_>> {
    if words.len() != 3 {
        return None;
    }
    Some(Asked {
        old: words[0].as_str(),
        new: words[1].as_str(),
        relation: words[2].as_str(),
        effort: Effort::of_seed(1),
        seconds: None,
        keeps: false,
    })
}

// Takes an option, and answers how many words it has.
fn take_option(words: &[String], asked: &mut Asked<'_>) -> Option<usize> {
    let option = words.first()?.as_str();
    if option == "--kept" {
        asked.keeps = true;
        return Some(1);
    }
    let number = words.get(1)?.as_str().parse::<u64>().ok()?;
    if option == "--seed" {
        asked.effort.seed = number;
    } else if option == "--pairs" {
        asked.effort.pairs = number as usize;
    } else if option == "--seconds" {
        asked.seconds = Some(number);
    } else {
        return None;
    }
    Some(2)
}

/// What words ask for, the first of which is the program's name: `OLD NEW REL`, or before these `--seed N`, `--pairs N`, `--seconds N` or
/// `--kept`.
pub fn read_words(words: &[String]) -> Option<Asked<'_>> {
    let count = words.len().checked_sub(3)?;
    if count == 0 {
        return None;
    }
    let mut asked = asked_of(&words[count..])?;
    let mut place = 1usize;
    for _ in 0..OPTIONS {
        if place < count {
            let taken = take_option(&words[place..count], &mut asked)?;
            place = place.saturating_add(taken);
        }
    }
    if place == count { Some(asked) } else { None }
}
