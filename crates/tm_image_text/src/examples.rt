//! Whole texts of some images: theorems that guard the definitions.

ghost use Rattle.std.specs.Prelude.{◌≡◌, codes};
ghost use Rattle.tm_image_text.specs.ImageText.{image_text};
ghost use Rattle.tm_image_text.specs.Examples.{one_task, one_product, every_line};

/// Some images are spelled as here.
pub fn text_examples()
    ensures one { image_text one_task ≡ codes "tmi 1\ntask 0 basic 1 auto 0 1\ntext 0 00200893 00000073\nring control 256\nring data 256\nring outputs 256\nring checks 4\n" }
    ensures product { image_text one_product ≡ codes "tmi 2\ntask 0 basic 1 auto 0 1\ntext 0 02208133 00000073\nring control 256\nring data 256\nring outputs 256\nring checks 4\n" }
    ensures every { image_text every_line ≡ codes "tmi 1\ntask 0 extended 255 auto 4 3\ntext 0 0000006f deadbeef\ndata 0 0 00000007 00000000 ffffffff\ntask 1 basic 2 off 0 4\ntext 1 00000073\ndata 1 0 00000000 0000000a\nresource 0 0 1\nresource 1 1\nalarm 0 activate 1\nalarm 1 event 0 4294967295\nbox 0 64\nline 0 tick\nline 3 activate 1\nline 15 event 0 16\nring control 65536\nring data 1024\nring outputs 1\nring checks 16\n" }
{}
