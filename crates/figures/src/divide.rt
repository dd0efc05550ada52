// A figure, the mean and the channel means.
ghost use Rattle.std.specs.Prelude.{◌≡◌, ◌≤◌};
ghost use Rattle.figures.specs.Figures.{most_exact, figure, mean_figure, channel_means};

use super::Means;

// Error and pixel count converted without loss, then one division. Requires that both are whole
// numbers that binary64 holds exactly.
fn quotient(error: u64, pixels: u64) -> f64
    requires { (error ≤ most_exact) × (pixels ≤ most_exact) }
    ensures { result ≡ figure error pixels }
{
    error as f64 / pixels as f64
}

// The mean square error of a strip with this error and this pixel count; none for no pixels.
// Requires the same.
pub fn mean_figure(error: u64, pixels: u64) -> Option<f64>
    requires { (error ≤ most_exact) × (pixels ≤ most_exact) }
    ensures { result ≡ mean_figure error pixels }
{
    if pixels == 0 {
        return None;
    }
    Some(quotient(error, pixels))
}

// The channel means of a strip with these channel errors and this pixel count. Requires the same of
// each.
pub fn channel_means(red: u64, green: u64, blue: u64, pixels: u64) -> Means
    requires { (red ≤ most_exact) × (green ≤ most_exact) × (blue ≤ most_exact)
        × (pixels ≤ most_exact) }
    ensures { result ≡ channel_means red green blue pixels }
{
    if pixels == 0 {
        return Means {
            red: 0.0,
            green: 0.0,
            blue: 0.0,
        };
    }
    Means {
        red: quotient(red, pixels),
        green: quotient(green, pixels),
        blue: quotient(blue, pixels),
    }
}
