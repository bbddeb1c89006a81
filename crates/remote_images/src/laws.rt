//! The law of remote pictures, as the contract of a function that does nothing.
ghost use Rattle.remote_images.specs.Decides.{RemoteImagesDecide};

/// Whatever a message's tokens are, they are washed otherwise with remote pictures than without if and only if they have a remote
/// picture.
pub fn remote_images_decide()
    ensures { RemoteImagesDecide }
{}
