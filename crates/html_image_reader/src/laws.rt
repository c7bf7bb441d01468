//! What an image says of its forest.
ghost use Rattle.html_image_reader.specs.Alike.{HaveEqualTrees};

/// Forests of which the images are equal have the same nodes. So what is read from the image of a forest is that forest's tree.
pub fn equal_images_have_equal_trees()
    ensures { HaveEqualTrees }
{}
