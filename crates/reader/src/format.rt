// What a file may be.
ghost use Rattle.std.specs.Prelude.{◌≡◌};
ghost use Rattle.reader.specs.Format.{start_of};

use grammar::Place;

// A value and no type parameter: the two formats differ in nothing but where their reading starts.
#[derive(Clone, Copy)]
pub(crate) enum Format {
    HandIn,
    ModelFile,
}

impl Format {
    // The place where the reading of such a file starts.
    pub(crate) fn start(self) -> Place
        ensures { result ≡ start_of self }
    {
        match self {
            Format::HandIn => Place::HandInDue,
            Format::ModelFile => Place::ModelDue,
        }
    }
}
