//! Values that tell a story, and work on them.

/// A value with a picture, which tells the value's story.
pub trait Storied {
    ghost use Rattle.account_pictures.specs.declared.pictures.Picture.{Picture};

    ghost picture: { Self → Picture };
}

/// A piece of work on the value of a desk. It only makes the story longer.
pub trait Work<T: Storied> {
    ghost use mathlib.Core.List.{IsPrefix};
    ghost use Rattle.account_pictures.specs.declared.pictures.Picture.{Picture};
    ghost use Rattle.account_pictures.specs.Story.{story_of};

    type Out;

    /// What holds of the work, the picture before it, the picture after it and its output.
    ghost does: { Self → Picture → Picture → Self.Out → Type 0 };

    fn run(self, inner: &mut T) -> Self::Out
        ensures lengthens { IsPrefix (story_of (T.picture inner.old)) (story_of (T.picture inner.new)) }
        ensures does { does self (T.picture inner.old) (T.picture inner.new) result };
}
