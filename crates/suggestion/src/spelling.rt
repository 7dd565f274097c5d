// How a text writes the names that it declares: programs keep them in upper case.
use indexmap::IndexMap;
use source_tree::{Mark, PartWord, Terminal, Tok};
use std::alloc::{AllocError, Global};

// How many names of a text are kept.
const MOST_NAMES: usize = 20_000;

// The unit of the PROGRAM: a word that names no block.
const PROGRAM: &str = "PROGRAM";

// The unit of the types.
const TYPES: &str = "TYPE";

// A name as its declaration writes it, and the block or type that stands there, in upper case, or nothing.
#[derive(Drop)]
struct Declared {
    written: String,
    kind: String,
}

// What a name that is read next is.
#[derive(Clone, Copy, PartialEq)]
enum Place {
    Program,
    Unit,
    Variable,
    Kind,
    Initial,
    TypeOrValue,
    Label,
    Body,
}

/// The names that a text declares, by their units: the PROGRAM, the blocks, and the types with the values of enumerations.
#[derive(Drop)]
pub struct Spelling {
    alloc: Global,
    places: IndexMap<String, usize>,
    declared: Vec<Declared>,
}

// Where a reading of the tokens stands: the unit, what a name is next, and the first of the variables whose colon is still to come.
#[derive(Drop)]
struct Reading {
    unit: String,
    place: Place,
    first: usize,
}

// A unit and a name of it as one word.
fn key_of(alloc: Global, unit: &str, name: &str) -> Result<String, AllocError> {
    format!(in alloc; "{unit}.{name}")
}

// What a name behind a word is; none where the word changes nothing.
fn place_behind(mark: Mark, place: Place) -> Option<Place> {
    match mark {
        Mark::Program => Some(Place::Program),
        Mark::FunctionBlock | Mark::Function => Some(Place::Unit),
        Mark::Type => Some(Place::TypeOrValue),
        Mark::Var | Mark::VarInput | Mark::VarOutput | Mark::VarTemp => Some(Place::Variable),
        Mark::EndVar | Mark::EndType => Some(Place::Body),
        Mark::Colon if place == Place::Variable => Some(Place::Kind),
        Mark::Semicolon if place == Place::Kind || place == Place::Initial => {
            Some(Place::Variable)
        }
        _ => None,
    }
}

impl Spelling {
    /// No name.
    pub fn new(alloc: Global) -> Spelling {
        Spelling {
            alloc,
            places: IndexMap::new(alloc),
            declared: Vec::new(alloc),
        }
    }

    // Adds a name of a unit, unless it is there.
    fn declare(&mut self, unit: &str, written: &str) -> Result<(), AllocError> {
        let upper = written.to_ascii_uppercase(self.alloc)?;
        let key = key_of(self.alloc, unit, upper.as_str())?;
        if self.declared.len() >= MOST_NAMES || self.places.get(key.as_str()).is_some() {
            return Ok(());
        }
        self.places.insert(key, self.declared.len())?;
        self.declared.push(Declared {
            written: String::from_str(self.alloc, written)?,
            kind: String::new(self.alloc),
        })?;
        Ok(())
    }

    // The variables from a number on are of this block or type.
    fn set_kind(&mut self, first: usize, name: &str) -> Result<(), AllocError> {
        for place in first..self.declared.len() {
            self.declared[place].kind = name.to_ascii_uppercase(self.alloc)?;
        }
        Ok(())
    }

    // Reads a name.
    fn read_name(&mut self, reading: &mut Reading, name: &str) -> Result<(), AllocError> {
        match reading.place {
            Place::Program => {
                reading.unit = String::from_str(self.alloc, PROGRAM)?;
                reading.place = Place::Body;
            }
            Place::Unit => {
                reading.unit = name.to_ascii_uppercase(self.alloc)?;
                reading.place = Place::Body;
            }
            Place::Variable => self.declare(reading.unit.as_str(), name)?,
            Place::Label => {
                self.declare(reading.unit.as_str(), name)?;
                reading.place = Place::Body;
            }
            Place::Kind => {
                self.set_kind(reading.first, name)?;
                reading.place = Place::Initial;
            }
            Place::TypeOrValue => self.declare(TYPES, name)?,
            Place::Initial | Place::Body => {}
        }
        Ok(())
    }

    // Reads a token.
    fn read(&mut self, reading: &mut Reading, tok: &Tok<'_>) -> Result<(), AllocError> {
        match tok.terminal {
            Terminal::Name => self.read_name(reading, tok.slice)?,
            Terminal::Part(part) if part != PartWord::Transition => reading.place = Place::Label,
            Terminal::Mark(mark) => {
                if let Some(place) = place_behind(mark, reading.place) {
                    reading.place = place;
                    if place == Place::Variable {
                        reading.first = self.declared.len();
                    }
                }
            }
            _ => {}
        }
        Ok(())
    }

    /// The names that the tokens of a text declare.
    pub fn of_tokens(alloc: Global, toks: &[Tok<'_>]) -> Result<Spelling, AllocError> {
        let mut spelling = Spelling::new(alloc);
        let mut reading = Reading {
            unit: String::new(alloc),
            place: Place::Body,
            first: 0,
        };
        for tok in toks {
            spelling.read(&mut reading, tok)?;
        }
        Ok(spelling)
    }

    // The number of a name of a unit.
    fn find(&self, unit: &str, name: &str) -> Result<Option<usize>, AllocError> {
        let key = key_of(self.alloc, unit, name)?;
        Ok(self.places.get(key.as_str()).copied())
    }

    // The unit whose names stand behind the point of a variable, by its number; before the first name the PROGRAM.
    fn unit_behind(&self, variable: Option<usize>) -> &str {
        match variable {
            Some(number) => match self.declared.get(number) {
                Some(declared) => declared.kind.as_str(),
                None => PROGRAM,
            },
            None => PROGRAM,
        }
    }

    // Adds a name as its declaration writes it, by its number; where there is none, as it is.
    fn add_name(
        &self,
        number: Option<usize>,
        name: &str,
        text: &mut String,
    ) -> Result<(), AllocError> {
        if let Some(number) = number
            && let Some(declared) = self.declared.get(number)
        {
            return text.push_str(declared.written.as_str());
        }
        text.push_str(name)
    }

    /// Adds the path of a cell of the program, each name of it as its declaration writes it; one that no text declares as it is.
    pub fn add_path(&self, path: &str, text: &mut String) -> Result<(), AllocError> {
        let mut variable = None;
        for (place, name) in path.split('.').enumerate() {
            text.push_str(if place == 0 { "" } else { "." })?;
            variable = self.find(self.unit_behind(variable), name)?;
            self.add_name(variable, name, text)?;
        }
        Ok(())
    }

    /// Adds the name of a value of an enumeration as its declaration writes it.
    pub fn add_value(&self, name: &str, text: &mut String) -> Result<(), AllocError> {
        let number = self.find(TYPES, name)?;
        self.add_name(number, name, text)
    }
}
