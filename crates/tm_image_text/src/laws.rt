//! What the text of an image says. The functions do nothing: their clauses are the laws.

ghost use Rattle.std.specs.Prelude.{◌≡◌, ℕ, List, Ok};
ghost use Rattle.tm_image.specs.Load.{Load};
ghost use Rattle.tm_image.specs.Image.{ImageView, IsLoad, IsImage, replaced, image_of};
ghost use Rattle.tm_image_text.specs.ImageText.{IsReadBack};
ghost use Rattle.tm_image_text.specs.Numbers.{IsOfWords, FitsText};

/// The text of an image is read as the image, but for the digest, which is that of the text; also where one of
/// its tasks is replaced by one of the image's set.
pub fn images_are_read_back()
    ensures every { (image : ImageView) → IsImage image → FitsText image → IsReadBack image }
    ensures replaced { (image : ImageView) (task : ℕ) (load : Load) → IsImage image → FitsText image → IsLoad load → load.set ≡ image.set → IsOfWords load
        → IsReadBack (replaced image task load) }
{}

/// The numbers of an image that was read have 32 bits.
pub fn read_images_fit()
    ensures { (bytes : List ℕ) (image : ImageView) → image_of bytes ≡ Ok image → FitsText image }
{}
