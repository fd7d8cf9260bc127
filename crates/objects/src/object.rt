// What every object is: a meaning, and code that is proved to do what it says.
ghost use Rattle.std.specs.Prelude.{◌≡◌, ℕ, List, length, Some};
ghost use Rattle.std.specs.Option.{option_map};
ghost use Rattle.objects.specs.Model.{ObjectModel};

use crate::answer::Answer;

pub trait Object: Copy {
    ghost model: { ObjectModel };

    ghost state: { Self → model.State };

    // a number, and no enum: kinds are open, and a memory's first line keeps this word
    fn kind() -> u64
        ensures { result ≡ model.kind };

    fn fresh() -> Self
        ensures { state result ≡ model.fresh };

    // any word may be asked for as an operation
    fn apply(&mut self, op: u64, arg: u64) -> Answer
        ensures answer { result ≡ model.answer (state self.old) op arg }
        ensures after { state self.new ≡ model.next (state self.old) op arg };

    fn picture(&self) -> [u64; 40]
        ensures { result ≡ model.picture (state self.now) };

    // None for words that are no picture
    fn from_picture(words: &[u64; 40]) -> Option<Self>
        ensures { option_map state result ≡ model.reads words.now };

    // the picture of a state reads as that state
    ghost back: { (s : model.State) → model.reads (model.picture s) ≡ Some s };

    // words that read as a state are its picture
    ghost only: { (ws : List ℕ) (s : model.State) → model.reads ws ≡ Some s → ws ≡ model.picture s };

    ghost long: { (s : model.State) → length (model.picture s) ≡ 40 };
}
