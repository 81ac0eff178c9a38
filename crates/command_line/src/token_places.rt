//! Where the client token comes from, if `--token` is not given.

ghost use Rattle.std.specs.Prelude.{◌≡◌, option_map};
ghost use Rattle.broker_types.specs.Words.{before_first};
ghost use Rattle.command_line.specs.TokenPlaces.{is_line_feed, place_of, token_place};

/// Where a client token is.
#[derive(Clone, Copy, Drop)]
pub enum TokenPlace<'a> {
    /// In a variable of the environment, with this value.
    Variable(&'a str),
    /// In the first line of the file of this name.
    File(&'a str),
}

/// The place of the client token: the value of `VAULT_TOKEN`; else the file of `--token-file`, that of
/// `VAULT_TOKEN_FILE`, or `.vault-token` in the home folder, the first of these that there is (Vault's documentation,
/// "Vault commands", "Environment variables" and "Token helpers"; `VAULT_TOKEN_FILE` is OpenBao's).
pub fn token_place<'a>(
    variable: Option<&'a str>,
    file: Option<&'a str>,
    file_variable: Option<&'a str>,
    home_file: Option<&'a str>,
) -> Option<TokenPlace<'a>>
    ensures { option_map place_of result ≡ token_place (option_map (λ t. t.now) variable.entry)
        (option_map (λ t. t.now) file.entry) (option_map (λ t. t.now) file_variable.entry)
        (option_map (λ t. t.now) home_file.entry) }
{
    if let Some(token) = variable {
        return Some(TokenPlace::Variable(token));
    }
    match file.or(file_variable).or(home_file) {
        Some(name) => Some(TokenPlace::File(name)),
        None => None,
    }
}

/// The first line of a text, without its LF.
pub fn first_line<'a>(text: &'a str) -> &'a str
    ensures { result.now ≡ before_first is_line_feed text.now }
{
    match text.split_once('\n') {
        Some((line, _)) => line,
        None => text,
    }
}
