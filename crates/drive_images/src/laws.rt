//! What holds of all images. Each function carries one law as its contract, and changes nothing.

ghost use Rattle.std.specs.Prelude.{◌≡◌, ◌++◌, List, ℕ, true, false};
ghost use Rattle.zone_drive.specs.Stored.{unused};
ghost use Rattle.drive_port.specs.Drive.{DriveState};
ghost use Rattle.drive_images.specs.Image.{IsImage, image_bytes};
ghost use Rattle.drive_images.specs.Meaning.{is_of_bytes};
ghost use Rattle.drive_images.specs.Reading.{IsImageFault};
ghost use Rattle.drive_images.specs.declared.fault.ImageFault.{ImageFault};

use drive_port::Device;
use zone_drive::Drive;

/// What is written is read again: the image of a drive is that of the same drive, which has completed no command.
pub fn image_again(drive: &Drive)
    ensures { IsImage (image_bytes drive.now.state.geometry drive.now.state.zones)
        (unused drive.now.state.geometry drive.now.state.zones) }
{
    drive.geometry();
    drive.zones();
}

/// Bytes are the image of one drive at most.
pub fn one_drive()
    ensures { (bytes : List ℕ) (a b : DriveState) → IsImage bytes a → IsImage bytes b → a ≡ b }
{}

/// Bytes begin with one image at most.
pub fn one_image()
    ensures { (first second x y : List ℕ) (a b : DriveState) → IsImage first a → IsImage second b →
        first ++ x ≡ second ++ y → (first ≡ second) × (x ≡ y) }
{}

/// An image has no fault, and other bytes have one first fault at most.
pub fn one_fault()
    ensures none { (bytes : List ℕ) (drive : DriveState) (fault : ImageFault) →
        IsImage bytes drive → IsImageFault bytes fault → is_of_bytes fault ≡ false }
    ensures first { (bytes : List ℕ) (a b : ImageFault) → is_of_bytes a ≡ true
        → is_of_bytes b ≡ true →
        IsImageFault bytes a → IsImageFault bytes b → a ≡ b }
{}
