// The letter classes that an image holds: where they lie, set one by one or all at once.
ghost use Rattle.std.specs.Prelude.{◌≡◌, ◌++◌, ◌+◌, ◌-◌, ◌≤◌, length, take, drop, replicate};
ghost use Rattle.numbers.specs.Numbers.{bytes8};
ghost use Rattle.rules.specs.Limits.{first_class, max_symbol};
ghost use Rattle.rules.specs.Memory.{over_at};
ghost use Rattle.classes.specs.Masks.{masks_size, mask_size, mask_start};
ghost use Rattle.image.specs.Image.{image_size, class_start, table_start, masks_in};

use crate::{CLASSES, TABLE, TOTAL};

// The bytes of the classes.
pub fn masks(image: &[u8]) -> &[u8]
    requires { image_size ≤ length image.now }
    ensures { result.now ≡ masks_in image.now }
{
    &image[CLASSES..TOTAL]
}

// No class, and no literal rule.
pub fn clear(image: &mut [u8])
    requires { image_size ≤ length image.old }
    ensures { image.new ≡ over_at class_start (replicate (table_start - class_start) 0) image.old }
{
    image[CLASSES..TABLE].fill(0);
}

// All classes are stored, by their bytes.
pub fn put_classes(image: &mut [u8], masks: &[u8])
    requires { (image_size ≤ length image.old) × (length masks.now ≡ masks_size) }
    ensures { image.new ≡ over_at class_start masks.now image.old }
{
    rule_bytes::put(image, CLASSES, masks);
}

// A class is stored, by its mask.
pub fn put_class(image: &mut [u8], symbol: u8, mask: u64)
    requires { (image_size ≤ length image.old) × ((first_class ≤ symbol) × (symbol ≤ max_symbol)) }
    ensures { image.new ≡ over_at class_start (take (mask_start symbol) (masks_in image.old) ++ (bytes8 mask ++ drop (mask_start symbol + mask_size) (masks_in image.old))) image.old }
{
    classes::storing::put_mask(&mut image[CLASSES..TOTAL], symbol, mask);
}
